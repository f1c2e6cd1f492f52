// From messages to payloads.
ghost use Rattle.std.specs.Prelude.{◌≡◌, IfOk};
ghost use Rattle.plugin_messages.specs.Writable.{IsHostWritable, IsPluginWritable, IsRequestWritable};
ghost use Rattle.plugin_messages.specs.RequestBytes.{host_of, host_payload_of};
ghost use Rattle.plugin_messages.specs.ReplyBytes.{plugin_payload_of};

mod fields;
mod reply;
mod request;

use crate::message::{HostMessage, PluginMessage};
use crate::request::Request;
use std::alloc::{AllocError, Global};
use unique_names::{discriminator, discriminators_are_utf8};

/// The payload of a host message.
#[tactic(auto, unfolding(crate::specs::RequestBytes::host_payload_of))]
pub fn host_payload(alloc: Global, message: &HostMessage) -> Result<Vec<u8>, AllocError>
    requires { IsHostWritable message.now }
    ensures { IfOk result (λ payload. payload.items ≡ host_payload_of message.now) }
{
    request::host_value(alloc, message)?.to_vec(alloc)
}

/// The payload of a plug-in message.
#[tactic(auto, unfolding(crate::specs::ReplyBytes::plugin_payload_of))]
pub fn plugin_payload(alloc: Global, message: &PluginMessage) -> Result<Vec<u8>, AllocError>
    requires { IsPluginWritable message.now }
    ensures { IfOk result (λ payload. payload.items ≡ plugin_payload_of message.now) }
{
    reply::plugin_value(alloc, message)?.to_vec(alloc)
}

/// The message by which a request is asked.
pub fn host_of(alloc: Global, request: &Request) -> Result<HostMessage, AllocError>
    ensures message { IfOk result (λ message. message ≡ host_of request.now) }
    ensures writable { IsRequestWritable request.now → IfOk result IsHostWritable }
{
    discriminators_are_utf8();
    Ok(HostMessage::Expand {
        target: request.target.clone()?,
        role: request.role,
        discriminator: discriminator(alloc, &request.key)?,
        parts: request.parts.clone()?,
    })
}
