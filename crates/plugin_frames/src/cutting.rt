//! Whole frames, cut off the front of bytes.

ghost use Rattle.std.specs.Prelude.{◌≡◌, ◌+◌, ◌<◌, ◌≤◌, List, length, IfOk};
ghost use Rattle.plugin_frames.specs.Frames.{spelled, IsFrames};
ghost use Rattle.plugin_frames.specs.Cutting.{IsFront, tail_of, payloads_of};

use crate::heading::LARGEST_PAYLOAD;
use std::alloc::{AllocError, Global};

/// What bytes begin with.
enum Front<'a> {
    Frame { payload: &'a [u8], more: &'a [u8] },
    TooLong(u64),
    Unfinished,
}

#[tactic(auto, unfolding(crate::specs::Frames::spelled))]
pub fn length_in(header: &[u8; 8]) -> u64
    ensures { result ≡ spelled header.now }
{
    u64::from_le_bytes(*header)
}

fn front_of(bytes: &[u8]) -> Front<'_>
    ensures { IsFront bytes.now result }
{
    let Some((header, behind)) = bytes.split_first_chunk::<8>() else {
        return Front::Unfinished;
    };
    let len = length_in(header);
    if len > LARGEST_PAYLOAD {
        return Front::TooLong(len);
    }
    if (behind.len() as u64) < len {
        return Front::Unfinished;
    }
    let (payload, more) = behind.split_at(len as usize);
    Front::Frame { payload, more }
}

/// What stands after the last whole frame.
#[derive(Drop)]
pub enum End<'a> {
    Rest(&'a [u8]),
    Length(u64),
}

/// The payloads of the whole frames, and what stands after them.
pub fn cut(alloc: Global, bytes: &[u8]) -> Result<(Vec<Vec<u8>>, End<'_>), AllocError>
    ensures { IfOk result (λ cut. IsFrames bytes.now (payloads_of cut.0.items) (tail_of cut.1)) }
{
    let mut payloads = Vec::new(alloc);
    let mut rest = bytes;
    'frames: loop {
        match front_of(rest) {
            Front::Frame { payload, more } => {
                payloads.push(Vec::from_slice(alloc, payload)?)?;
                rest = more;
            }
            Front::TooLong(len) => return Ok((payloads, End::Length(len))),
            Front::Unfinished => return Ok((payloads, End::Rest(rest))),
        }
    }
}
