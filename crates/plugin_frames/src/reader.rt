//! A reader of frames that is fed in pieces.

ghost use Rattle.std.specs.Prelude.{◌≡◌, ◌↔◌, ◌+◌, ◌^◌, ◌<◌, ◌++◌, ℕ, List, [], length, take, IfOk, IfErr, OnOk, OnErr, IsTrue};
ghost use Rattle.plugin_frames.specs.Frames.{Rest, Length, IsUnfinished, IsFrames};
ghost use Rattle.plugin_frames.specs.Feeding.{Appends, AppendsAfter, LeavesRest, Refuses, IsFaultUnlessMemory, IsWaiting};

use crate::cutting::{End, cut, length_in};
use crate::heading::LARGEST_PAYLOAD;
use crate::refusal::{FrameFault, Refusal};
use std::alloc::{AllocError, Global};
use std::marker::Model;

#[derive(Drop)]
enum Held {
    Rest(Vec<u8>),
    Length(u64),
}

/// Gives out the payloads of a stream that it is fed in pieces. It holds the rest after the last whole frame, or the
/// length above `LARGEST_PAYLOAD` that stands there.
#[derive(Drop)]
pub struct FrameReader {
    alloc: Global,
    held: Held,
}

impl Model for FrameReader {
    ghost use Rattle.plugin_frames.specs.Frames.{Tail};

    ghost Value = { Tail };

    ghost use Rattle.plugin_frames.specs.Holding.{tail_held, IsOpen};

    ghost view = { λ reader. tail_held reader.held };

    ghost invariant = { λ reader. IsOpen reader.held };
}

impl FrameReader {
    /// Nothing is read yet. This takes no memory.
    pub fn new(alloc: Global) -> FrameReader
        ensures { result ≡ Rest [] }
    {
        FrameReader {
            alloc,
            held: Held::Rest(Vec::new(alloc)),
        }
    }

    /// Takes the next piece of the stream, and appends each payload that it completes to `out`.
    /// After want of memory the piece may be fed again.
    pub fn feed(&mut self, piece: &[u8], out: &mut Vec<Vec<u8>>) -> Result<(), Refusal<FrameFault>>
        ensures ok { OnOk result
            (LeavesRest self.old piece.now out.old.items out.new.items self.new) }
        ensures refused { IfErr result
            (λ refusal. Refuses refusal self.old piece.now out.old.items out.new.items self.new) }

        // A length above the limit is reported by the piece that completes it ..
        ensures too_long { (rest : List ℕ) (payloads : List (List ℕ)) (len : ℕ)
            → self.old ≡ Rest rest → IsFrames (rest ++ piece.now) payloads (Length len)
            → IsFaultUnlessMemory result (FrameFault.TooLong len) }

        // .. and by each call from then on.
        ensures dead { (len : ℕ) → self.old ≡ Length len
            → result ≡ Err (Refusal.Fault (FrameFault.Dead len)) }
    {
        let alloc = self.alloc;
        match &mut self.held {
            Held::Length(len) => Err(Refusal::Fault(FrameFault::Dead(*len))),
            Held::Rest(rest) => match read_on(alloc, rest, piece, out)? {
                None => Ok(()),
                Some(Held::Length(len)) => {
                    self.held = Held::Length(len);
                    Err(Refusal::Fault(FrameFault::TooLong(len)))
                }
                Some(Held::Rest(rest)) => {
                    self.held = Held::Rest(rest);
                    Ok(())
                }
            },
        }
    }

    /// A frame has begun and isn't whole yet.
    pub fn waiting(&self) -> bool
        ensures { IsTrue result ↔ IsWaiting self.now }
    {
        match &self.held {
            Held::Rest(rest) => !rest.is_empty(),
            Held::Length(_) => false,
        }
    }
}

ghost use Rattle.plugin_frames.specs.Holding.{tail_held, tail_after};

// Reads the piece on from an unfinished rest. `None`: no frame is whole yet, and the rest has grown by the piece.
fn read_on(
    alloc: Global,
    rest: &mut Vec<u8>,
    piece: &[u8],
    out: &mut Vec<Vec<u8>>,
) -> Result<Option<Held>, AllocError>
    requires { IsUnfinished rest.old.items }
    ensures ok { IfOk result (λ next. Appends (rest.old.items ++ piece.now)
        out.old.items out.new.items (tail_after next rest.new.items)) }
    ensures rest { OnErr result (rest.new.items ≡ rest.old.items) }
    ensures out { OnErr result (out.new.items ≡ out.old.items) }
{
    let before = rest.len();
    match read_begun(alloc, rest, piece, out) {
        Ok(next) => Ok(next),
        Err(error) => {
            rest.truncate(before);
            Err(error)
        }
    }
}

// The same, but where memory is wanting the rest may have grown.
fn read_begun(
    alloc: Global,
    rest: &mut Vec<u8>,
    piece: &[u8],
    out: &mut Vec<Vec<u8>>,
) -> Result<Option<Held>, AllocError>
    requires { IsUnfinished rest.old.items }
    ensures ok { IfOk result (λ next. Appends (rest.old.items ++ piece.now)
        out.old.items out.new.items (tail_after next rest.new.items)) }
    ensures rest { OnErr result (take (length rest.old.items) rest.new.items ≡ rest.old.items) }
    ensures out { OnErr result (out.new.items ≡ out.old.items) }
{
    let behind = fill_header(rest, piece)?;
    let Some((header, begun)) = rest.split_first_chunk::<8>() else {
        return Ok(None);
    };
    let len = length_in(header);
    if len > LARGEST_PAYLOAD {
        return Ok(Some(Held::Length(len)));
    }
    let missing = len as usize - begun.len();
    if behind.len() < missing {
        rest.extend_from_slice(behind)?;
        return Ok(None);
    }
    let (last, more) = behind.split_at(missing);
    let payload = joined(alloc, begun, last)?;
    Ok(Some(take_frames(alloc, payload, more, out)?))
}

// Moves bytes from the piece to the rest until that has a header, and answers those behind them.
fn fill_header<'a>(rest: &mut Vec<u8>, piece: &'a [u8]) -> Result<&'a [u8], AllocError>
    ensures whole { IfOk result (λ behind. rest.new.items ++ behind.now ≡ rest.old.items ++ piece.now) }
    ensures full { IfOk result (λ behind. length rest.new.items < 8 → behind.now ≡ []) }
    ensures header { 8 < length rest.new.items → rest.new.items ≡ rest.old.items }
    ensures kept { take (length rest.old.items) rest.new.items ≡ rest.old.items }
{
    let wanted = 8usize.saturating_sub(rest.len()).min(piece.len());
    let (front, behind) = piece.split_at(wanted);
    rest.extend_from_slice(front)?;
    Ok(behind)
}

fn joined(alloc: Global, begun: &[u8], last: &[u8]) -> Result<Vec<u8>, AllocError>
    requires { length begun.now + length last.now < 2 ^ 64 }
    ensures { IfOk result (λ payload. payload.items ≡ begun.now ++ last.now) }
{
    let mut payload = Vec::with_capacity(alloc, begun.len() + last.len())?;
    payload.extend_from_slice(begun)?;
    payload.extend_from_slice(last)?;
    Ok(payload)
}

// Appends a payload and those of the whole frames behind it, and answers what is to be held after them.
fn take_frames(
    alloc: Global,
    payload: Vec<u8>,
    more: &[u8],
    out: &mut Vec<Vec<u8>>,
) -> Result<Held, AllocError>
    ensures ok { IfOk result
        (λ held. AppendsAfter payload.items more.now out.old.items out.new.items (tail_held held)) }
    ensures err { OnErr result (out.new.items ≡ out.old.items) }
{
    let (mut payloads, end) = cut(alloc, more)?;
    payloads.insert(0, payload)?;
    let held = match end {
        End::Rest(rest) => Held::Rest(Vec::from_slice(alloc, rest)?),
        End::Length(len) => Held::Length(len),
    };
    out.append(&mut payloads)?;
    Ok(held)
}
