// What a payload in its place is.
ghost use Rattle.std.specs.Prelude.{◌≡◌, Some, None, false, IfOk};
ghost use Rattle.link_driver.specs.LinkTable.{reply_outcome, is_capability, is_result, greets_badly};
ghost use Rattle.link_driver.specs.Awaiting.{GivesReply};
ghost use Rattle.plugin_frames.specs.Cutting.{payloads_of};
ghost use Rattle.plugin_messages.specs.PluginOf.{plugin_message_of};

use plugin_messages::{Cause, Outcome, PluginMessage, Refusal, read_plugin};
use std::alloc::{AllocError, Global};

/// The outcome by the payload in a reply's place.
#[tactic(auto, unfolding(crate::specs::LinkTable::reply_outcome))]
pub fn reply_outcome(alloc: Global, payload: &[u8]) -> Result<Outcome, AllocError>
    ensures { IfOk result (λ o. o ≡ reply_outcome (plugin_message_of payload.now)) }
{
    match read_plugin(alloc, payload) {
        Ok(PluginMessage::Result { text, diagnostics }) => Ok(Outcome::Reply { text, diagnostics }),
        Ok(PluginMessage::Capability { .. }) => Ok(Outcome::Failed(Cause::NoReply)),
        Ok(PluginMessage::Loaded { .. }) => Ok(Outcome::Failed(Cause::NoReply)),
        Err(Refusal::Fault(_)) => Ok(Outcome::Failed(Cause::NoReply)),
        Err(Refusal::Memory) => Err(AllocError),
    }
}

/// Whether the payload in the greeting's place answers it.
#[tactic(auto, unfolding(crate::specs::LinkTable::is_capability))]
pub fn is_capability(alloc: Global, payload: &[u8]) -> Result<bool, AllocError>
    ensures { IfOk result (λ is. is ≡ is_capability (plugin_message_of payload.now)) }
{
    match read_plugin(alloc, payload) {
        Ok(PluginMessage::Capability { .. }) => Ok(true),
        Ok(PluginMessage::Result { .. }) => Ok(false),
        Ok(PluginMessage::Loaded { .. }) => Ok(false),
        Err(Refusal::Fault(_)) => Ok(false),
        Err(Refusal::Memory) => Err(AllocError),
    }
}

/// What the payload in a reply's place says, where it is one.
pub fn result_in(alloc: Global, payload: &[u8]) -> Result<Option<Outcome>, AllocError>
    ensures said { IfOk result (λ said. (outcome : Outcome) → said ≡ Some outcome → GivesReply payload.now outcome) }
    ensures other { IfOk result (λ said. said ≡ None → is_result payload.now ≡ false) }
{
    match reply_outcome(alloc, payload)? {
        Outcome::Reply { text, diagnostics } => Ok(Some(Outcome::Reply { text, diagnostics })),
        Outcome::Failed(_) => Ok(None),
    }
}

/// Whether the first payload stands in the greeting's place and doesn't answer it.
pub fn greets_badly(alloc: Global, payloads: &[Vec<u8>]) -> Result<bool, AllocError>
    ensures { IfOk result (λ is. is ≡ greets_badly (payloads_of payloads.now)) }
{
    let Some(greeting) = payloads.first() else {
        return Ok(false);
    };
    Ok(!is_capability(alloc, greeting)?)
}
