// The frames that a process is given.
ghost use Rattle.std.specs.Prelude.{◌≡◌, ◌++◌, IfOk};
ghost use Rattle.plugin_frames.specs.Frames.{frame_of};
ghost use Rattle.plugin_messages.specs.Writable.{IsRequestWritable};
ghost use Rattle.link_driver.specs.Requests.{greeting_frame, request_frame, bytes_for};

use plugin_frames::header;
use plugin_messages::{HostMessage, Request, host_of, host_payload};
use std::alloc::{AllocError, Global};

#[tactic(auto, unfolding(plugin_frames::specs::Frames::frame_of))]
fn put_frame(frames: &mut Vec<u8>, payload: &[u8]) -> Result<(), AllocError>
    ensures { IfOk result (λ _. frames.new.items ≡ frames.old.items ++ frame_of payload.now) }
{
    frames.extend_from_slice(&header(payload.len() as u64))?;
    frames.extend_from_slice(payload)?;
    Ok(())
}

#[tactic(auto, unfolding(crate::specs::Requests::request_frame))]
fn put_request(alloc: Global, frames: &mut Vec<u8>, request: &Request) -> Result<(), AllocError>
    requires { IsRequestWritable request.now }
    ensures { IfOk result (λ _. frames.new.items ≡ frames.old.items ++ request_frame request.now) }
{
    let payload = host_payload(alloc, &host_of(alloc, request)?)?;
    put_frame(frames, &payload)
}

#[tactic(auto, unfolding(crate::specs::Requests::greeting_frame))]
fn put_greeting(alloc: Global, frames: &mut Vec<u8>) -> Result<(), AllocError>
    ensures { IfOk result (λ _. frames.new.items ≡ frames.old.items ++ greeting_frame) }
{
    let payload = host_payload(alloc, &HostMessage::GetCapability { version: 7 })?;
    put_frame(frames, &payload)
}

/// What one write gives for a request: the greeting stands before the first of a process.
pub fn write_for(alloc: Global, request: &Request, is_first: bool) -> Result<Vec<u8>, AllocError>
    requires { IsRequestWritable request.now }
    ensures { IfOk result (λ sent. sent.items ≡ bytes_for is_first request.now) }
{
    let mut sent = Vec::new(alloc);
    if is_first {
        put_greeting(alloc, &mut sent)?;
        put_request(alloc, &mut sent, request)?;
        return Ok(sent);
    }
    put_request(alloc, &mut sent, request)?;
    Ok(sent)
}
