// Reading a process's output, piece after piece.
ghost use Rattle.std.specs.Prelude.{◌≡◌, ◌≤◌, ◌<◌, ℕ, List, length, drop, IfOk, None};
ghost use Rattle.swift_base.specs.Told.{Tells};
ghost use Rattle.link_driver.specs.Links.{StopHasCause, HasNotStopped, Gains};

use crate::link::{MOST_BYTES, Stop};
use std::alloc::AllocError;
use swift_base::Source;

// How many bytes one read may give.
const PIECE: usize = 4096;

/// Reads one piece; the stop, where it came instead.
pub fn read_piece<R: Source>(reader: &mut R, got: &mut Vec<u8>) -> Result<Option<Stop>, AllocError>
    requires { HasNotStopped (R.seen reader.old) }
    ensures more { IfOk result (λ stop. stop ≡ None
        → (length got.old.items ≤ MOST_BYTES) × (length got.old.items < length got.new.items) × HasNotStopped (R.seen reader.new)) }
    ensures cause { IfOk result (λ stop. Tells stop (StopHasCause (R.seen reader.new) (length got.new.items))) }
    ensures stays { IfOk result (λ stop. Tells stop (λ _. got.new.items ≡ got.old.items)) }
    ensures gains { IfOk result (λ _. Gains (R.seen reader.old) got.old.items (R.seen reader.new) got.new.items) }
{
    if got.len() > MOST_BYTES {
        return Ok(Some(Stop::Overrun));
    }
    let mut room = [0u8; PIECE];
    match reader.read(&mut room) {
        Ok(0) => Ok(Some(Stop::Ended)),
        Ok(count) => {
            got.extend_from_slice(&room[..count])?;
            Ok(None)
        }
        Err(_) => Ok(Some(Stop::Failed)),
    }
}

/// Reads on to the stop.
pub fn read_to_stop<R: Source>(reader: &mut R, got: &mut Vec<u8>) -> Result<Stop, AllocError>
    requires { HasNotStopped (R.seen reader.old) }
    ensures cause { IfOk result (StopHasCause (R.seen reader.new) (length got.new.items)) }
    ensures gains { IfOk result (λ _. Gains (R.seen reader.old) got.old.items (R.seen reader.new) got.new.items) }
{
    'pieces: loop {
        if let Some(stop) = read_piece(reader, got)? {
            return Ok(stop);
        }
    }
}

/// What stands from an index on; nothing past the end.
pub fn behind(bytes: &[u8], at: usize) -> &[u8]
    ensures { result.now ≡ drop at bytes.now }
{
    &bytes[at.min(bytes.len())..]
}
