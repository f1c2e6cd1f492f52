// Awaiting the answers to what was written.
ghost use Rattle.std.specs.Prelude.{◌≡◌, ◌<◌, ◌≤◌, ◌++◌, ℕ, List, Some, None, true, false, length, IfOk};
ghost use Rattle.swift_base.specs.Told.{Tells};
ghost use Rattle.plugin_frames.specs.Cutting.{payloads_of};
ghost use Rattle.link_driver.specs.Links.{StopHasCause, HasNotStopped, Gains};
ghost use Rattle.link_driver.specs.LinkTable.{greets_badly};
ghost use Rattle.link_driver.specs.Awaiting.{stop_of, stop_in, HasRead, HasReadSo, IsSoleReply, Replies, HasNoReply, NeverReplies};

use crate::link::Stop;
use crate::messages::{greets_badly, result_in};
use crate::pieces::{behind, read_piece};
use plugin_frames::{
    FrameReader, Refusal as FrameRefusal, frames_are_read, frames_go_on, one_reading,
};
use plugin_messages::Outcome;
use std::alloc::{AllocError, Global};
use swift_base::Source;

// What came of waiting for payloads.
#[derive(Clone, Copy)]
pub(crate) enum Awaited {
    /// As many as were awaited, and maybe more.
    Came,
    /// Something else: the process is asked nothing more.
    Other,
    /// The output stopped before.
    Stopped(Stop),
}

/// What came of waiting for the answer to a request.
#[derive(Drop)]
pub enum Response {
    /// A reply, and nothing else.
    Reply(Outcome),
    /// Something else: the process is asked nothing more.
    Other,
    /// The output stopped before.
    Stopped(Stop),
}

// Reads until there are so many payloads, or no more can come.
fn await_payloads<R: Source>(
    reader: &mut R,
    got: &mut Vec<u8>,
    frames: &mut FrameReader,
    payloads: &mut Vec<Vec<u8>>,
    count: usize,
) -> Result<Awaited, AllocError>
    requires { HasNotStopped (R.seen reader.old) }
    ensures goes_on { IfOk result (λ a. stop_of a ≡ None → HasNotStopped (R.seen reader.new)) }
    ensures cause { IfOk result (λ a. Tells (stop_of a) (StopHasCause (R.seen reader.new) (length got.new.items))) }
    ensures gains { IfOk result (λ _. Gains (R.seen reader.old) got.old.items (R.seen reader.new) got.new.items) }
    ensures grows { IfOk result (λ _. (more : List (List ℕ)) × (payloads_of payloads.new.items ≡ payloads_of payloads.old.items ++ more)) }
    ensures enough { IfOk result (λ a. a ≡ Awaited.Came → count ≤ length payloads.new.items) }
    ensures few { IfOk result (λ a. Tells (stop_of a) (λ _. length payloads.new.items < count)) }
    ensures read { (start : List ℕ) → HasRead start got.old.items (payloads_of payloads.old.items) frames.old
        → IfOk result (HasReadSo start got.new.items (payloads_of payloads.new.items) frames.new) }
{
    frames_go_on();
    'pieces: while payloads.len() < count {
        let before = got.len();
        if let Some(stop) = read_piece(reader, got)? {
            return Ok(Awaited::Stopped(stop));
        }
        match frames.feed(behind(got, before), payloads) {
            Ok(()) => (),
            Err(FrameRefusal::Memory) => return Err(AllocError),
            Err(FrameRefusal::Fault(_)) => return Ok(Awaited::Other),
        }
    }
    Ok(Awaited::Came)
}

// What the one payload says, where it is a reply and nothing stands behind it.
fn sole_reply(
    alloc: Global,
    frames: &FrameReader,
    payloads: &[Vec<u8>],
) -> Result<Option<Outcome>, AllocError>
    ensures said { IfOk result (λ said. (outcome : Outcome) → said ≡ Some outcome → IsSoleReply (payloads_of payloads.now) frames.now outcome) }
    ensures other { IfOk result (λ said. said ≡ None → (outcome : Outcome) → ¬ IsSoleReply (payloads_of payloads.now) frames.now outcome) }
{
    let [payload] = payloads else {
        return Ok(None);
    };
    if frames.waiting() {
        return Ok(None);
    }
    let said = result_in(alloc, payload)?;
    Ok(said)
}

// The answer to a request behind the first one.
fn await_result<R: Source>(
    alloc: Global,
    reader: &mut R,
    got: &mut Vec<u8>,
) -> Result<Response, AllocError>
    requires { HasNotStopped (R.seen reader.old) }
    ensures goes_on { IfOk result (λ a. stop_in a ≡ None → HasNotStopped (R.seen reader.new)) }
    ensures cause { IfOk result (λ a. Tells (stop_in a) (StopHasCause (R.seen reader.new) (length got.new.items))) }
    ensures gains { IfOk result (λ _. Gains (R.seen reader.old) got.old.items (R.seen reader.new) got.new.items) }
    ensures replies { IfOk result (λ a. (outcome : Outcome) → a ≡ Response.Reply outcome → Replies false outcome got.old.items got.new.items) }
    ensures other { IfOk result (λ a. a ≡ Response.Other → NeverReplies false got.old.items got.new.items) }
    ensures stopped { IfOk result (λ a. Tells (stop_in a) (λ _. HasNoReply false got.old.items got.new.items)) }
{
    frames_are_read();
    frames_go_on();
    one_reading();
    let mut frames = FrameReader::new(alloc);
    let mut payloads = Vec::new(alloc);
    match await_payloads(reader, got, &mut frames, &mut payloads, 1)? {
        Awaited::Came => (),
        Awaited::Other => return Ok(Response::Other),
        Awaited::Stopped(stop) => return Ok(Response::Stopped(stop)),
    }
    match sole_reply(alloc, &frames, &payloads)? {
        Some(outcome) => Ok(Response::Reply(outcome)),
        None => Ok(Response::Other),
    }
}

// The answers to the greeting and to the first request.
fn await_both<R: Source>(
    alloc: Global,
    reader: &mut R,
    got: &mut Vec<u8>,
) -> Result<Response, AllocError>
    requires { HasNotStopped (R.seen reader.old) }
    ensures goes_on { IfOk result (λ a. stop_in a ≡ None → HasNotStopped (R.seen reader.new)) }
    ensures cause { IfOk result (λ a. Tells (stop_in a) (StopHasCause (R.seen reader.new) (length got.new.items))) }
    ensures gains { IfOk result (λ _. Gains (R.seen reader.old) got.old.items (R.seen reader.new) got.new.items) }
    ensures replies { IfOk result (λ a. (outcome : Outcome) → a ≡ Response.Reply outcome → Replies true outcome got.old.items got.new.items) }
    ensures other { IfOk result (λ a. a ≡ Response.Other → NeverReplies true got.old.items got.new.items) }
    ensures stopped { IfOk result (λ a. Tells (stop_in a) (λ _. HasNoReply true got.old.items got.new.items)) }
{
    frames_are_read();
    frames_go_on();
    one_reading();
    let mut frames = FrameReader::new(alloc);
    let mut payloads = Vec::new(alloc);
    match await_payloads(reader, got, &mut frames, &mut payloads, 1)? {
        Awaited::Came => (),
        Awaited::Other => return Ok(Response::Other),
        Awaited::Stopped(stop) => return Ok(Response::Stopped(stop)),
    }
    if greets_badly(alloc, &payloads)? {
        return Ok(Response::Other);
    }
    match await_payloads(reader, got, &mut frames, &mut payloads, 2)? {
        Awaited::Came => (),
        Awaited::Other => return Ok(Response::Other),
        Awaited::Stopped(stop) => return Ok(Response::Stopped(stop)),
    }
    let Some((_, replies)) = payloads.split_first() else {
        return Ok(Response::Other);
    };
    match sole_reply(alloc, &frames, replies)? {
        Some(outcome) => Ok(Response::Reply(outcome)),
        None => Ok(Response::Other),
    }
}

/// Reads until a request is answered, and the greeting before the first one, or no answer can come.
pub fn await_reply<R: Source>(
    alloc: Global,
    reader: &mut R,
    got: &mut Vec<u8>,
    is_first: bool,
) -> Result<Response, AllocError>
    requires { HasNotStopped (R.seen reader.old) }
    ensures goes_on { IfOk result (λ a. stop_in a ≡ None → HasNotStopped (R.seen reader.new)) }
    ensures cause { IfOk result (λ a. Tells (stop_in a) (StopHasCause (R.seen reader.new) (length got.new.items))) }
    ensures gains { IfOk result (λ _. Gains (R.seen reader.old) got.old.items (R.seen reader.new) got.new.items) }
    ensures replies { IfOk result (λ a. (outcome : Outcome) → a ≡ Response.Reply outcome → Replies is_first outcome got.old.items got.new.items) }
    ensures other { IfOk result (λ a. a ≡ Response.Other → NeverReplies is_first got.old.items got.new.items) }
    ensures stopped { IfOk result (λ a. Tells (stop_in a) (λ _. HasNoReply is_first got.old.items got.new.items)) }
{
    if is_first {
        return await_both(alloc, reader, got);
    }
    await_result(alloc, reader, got)
}
