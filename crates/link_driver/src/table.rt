// What became of the keys that were asked.
ghost use Rattle.std.specs.Prelude.{◌≡◌, ◌==◌, ◌&&◌, ◌+◌, ◌^◌, ◌<◌, length, slice_get, option_map, IfOk};
ghost use Rattle.plugin_frames.specs.Frames.{Tail, IsFrames};
ghost use Rattle.plugin_frames.specs.Cutting.{payloads_of};
ghost use Rattle.link_driver.specs.LinkTable.{greets_badly, is_length, is_next, missing_by, replied, outcome_at, each_below, IsLinkTable, IsLastOutcome};

use crate::link::{Closed, Stop};
use crate::messages::{greets_badly, reply_outcome};
use plugin_frames::{FrameReader, Refusal as FrameRefusal, frames_are_read};
use plugin_messages::{Cause, Outcome};
use std::alloc::{AllocError, Global};

// The payloads that a process gave, and whether a length above the limit stands behind them.
#[derive(Drop)]
struct Given {
    payloads: Vec<Vec<u8>>,
    too_long: bool,
}

fn given_in(alloc: Global, got: &[u8]) -> Result<Given, AllocError>
    ensures { IfOk result (λ g. (tail : Tail) × IsFrames got.now (payloads_of g.payloads.items) tail × (g.too_long ≡ is_length tail)) }
{
    frames_are_read();
    let mut frames = FrameReader::new(alloc);
    let mut payloads = Vec::new(alloc);
    let too_long = match frames.feed(got, &mut payloads) {
        Ok(()) => false,
        Err(FrameRefusal::Memory) => return Err(AllocError),
        Err(FrameRefusal::Fault(_)) => true,
    };
    Ok(Given { payloads, too_long })
}

fn missing(too_long: bool, stop: Stop) -> Option<Outcome>
    ensures { result ≡ missing_by too_long stop }
{
    if too_long {
        return Some(Outcome::Failed(Cause::NoReply));
    }
    match stop {
        Stop::Ended | Stop::Failed => Some(Outcome::Failed(Cause::NoReply)),
        Stop::Overrun => None,
    }
}

fn replied(
    alloc: Global,
    payload: Option<&Vec<u8>>,
    too_long: bool,
    stop: Stop,
) -> Result<Option<Outcome>, AllocError>
    ensures { IfOk result (λ o. o ≡ replied (option_map (λ p. p.now.items) payload.entry) too_long stop) }
{
    match payload {
        Some(payload) => Ok(Some(reply_outcome(alloc, payload)?)),
        None => Ok(missing(too_long, stop)),
    }
}

// The key is the last one, and its request was not written whole.
fn is_unwritten(count: usize, write_failed: bool, number: usize) -> bool
    requires { number < count }
    ensures { result ≡ (write_failed && (number + 1 == count)) }
{
    write_failed && number + 1 == count
}

fn is_ungreeted(alloc: Global, payloads: &[Vec<u8>], number: usize) -> Result<bool, AllocError>
    ensures { IfOk result (λ is. is ≡ ((number == 0) && greets_badly (payloads_of payloads.now))) }
{
    if number != 0 {
        return Ok(false);
    }
    greets_badly(alloc, payloads)
}

// A length above the limit stands in the key's place.
fn is_too_long(given: &Given, number: usize) -> bool
    requires { number + 1 < 2 ^ 64 }
    ensures { result ≡ (given.now.too_long && is_next number (payloads_of given.now.payloads.items)) }
{
    let met = given.payloads.len();
    given.too_long && (met == number + 1 || (number == 0 && met == 0))
}

fn payload_at(payloads: &[Vec<u8>], place: usize) -> Option<&Vec<u8>>
    ensures { option_map (λ p. p.now.items) result ≡ slice_get (payloads_of payloads.now) place }
{
    payloads.get(place)
}

#[tactic(auto, unfolding(crate::specs::LinkTable::outcome_at))]
fn outcome_at(
    alloc: Global,
    count: usize,
    given: &Given,
    stop: Stop,
    write_failed: bool,
    number: usize,
) -> Result<Option<Outcome>, AllocError>
    requires { number < count }
    ensures { IfOk result (λ o. o ≡ outcome_at count (payloads_of given.now.payloads.items) given.now.too_long stop write_failed number) }
{
    if is_unwritten(count, write_failed, number) {
        return Ok(Some(Outcome::Failed(Cause::NoReply)));
    }
    if is_ungreeted(alloc, &given.payloads, number)? {
        return Ok(Some(Outcome::Failed(Cause::NoReply)));
    }
    let payload = payload_at(&given.payloads, number + 1);
    replied(alloc, payload, is_too_long(given, number), stop)
}

/// The outcomes of a process's keys, in their order: none for a key that may still have been answered.
pub fn link_table<W: Drop, R: Drop>(
    alloc: Global,
    link: &Closed<W, R>,
) -> Result<Vec<Option<Outcome>>, AllocError>
    ensures { IfOk result (λ table. IsLinkTable (length link.now.asked.items) link.now.got.items link.now.stop link.now.write_failed table.items) }
{
    let given = given_in(alloc, &link.got)?;
    let count = link.asked.len();
    let mut table = Vec::new(alloc);
    'keys: for number in 0..count {
        let outcome = outcome_at(alloc, count, &given, link.stop, link.write_failed, number)?;
        table.push(outcome)?;
    }
    Ok(table)
}

/// The outcome of the last key that a process was asked.
pub(crate) fn last_outcome<W: Drop, R: Drop>(
    alloc: Global,
    link: &Closed<W, R>,
) -> Result<Option<Outcome>, AllocError>
    requires { 0 < length link.now.asked.items }
    ensures { IfOk result (λ last. IsLastOutcome (length link.now.asked.items) link.now.got.items link.now.stop link.now.write_failed last) }
{
    let given = given_in(alloc, &link.got)?;
    let count = link.asked.len();
    let last = outcome_at(
        alloc,
        count,
        &given,
        link.stop,
        link.write_failed,
        count - 1,
    )?;
    Ok(last)
}
