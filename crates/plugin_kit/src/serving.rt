// Serving a stream of requests: read a piece, answer the requests that it completes, read on.
ghost use Rattle.std.specs.Prelude.{◌≡◌, ◌+◌, ◌^◌, ◌<◌, ◌≤◌, ℕ, List, length, take, IfOk, IfErr, OnOk};
ghost use Rattle.swift_base.specs.Told.{prepend};
ghost use Rattle.swift_base.specs.Outside.{SourceSeen, SinkSeen};
ghost use Rattle.plugin_frames.specs.Frames.{Rest};
ghost use Rattle.plugin_frames.specs.Cutting.{payloads_of};
ghost use Rattle.plugin_messages.specs.Writable.{IsHostWritable};
ghost use Rattle.plugin_kit.specs.Served.{Serves};
ghost use Rattle.plugin_kit.specs.Answering.{IsFrameOfReply, IsFrameFor, HasNoFrame, IsAnswered, AreAnswered, StopsAt, StopsAmong, held_bytes, IsFed, length_met, Reached, Reads, IsEnd, StopsReading};

use crate::asking::Answers;
use crate::served::Served;
use plugin_frames::{FrameFault, FrameReader, Refusal as FrameRefusal, header};
use plugin_messages::{HostMessage, Refusal as HostRefusal, plugin_payload, read_host};
use std::alloc::{AllocError, Global};
use swift_base::{Sink, Source, write_all};

/// A plug-in that has taken more bytes reads no further.
pub const MOST_BYTES: u64 = 1_099_511_627_776;

// How many bytes one read may give.
const PIECE: usize = 4096;

// How many bytes were taken, and how many requests were answered.
#[derive(Clone, Copy)]
struct Progress {
    taken: u64,
    requests: u64,
}

/// Answers each request of the stream before it waits for the next, until the input ends or a request can't be
/// answered. The sink is given whole frames, but for the last one where a write fails, and isn't closed.
pub fn serve<S: Source, K: Sink, A: Answers>(
    alloc: Global,
    source: &mut S,
    sink: &mut K,
    answers: &A,
) -> Served
    ensures { Serves (A.given answers.now) (S.seen source.old) (S.seen source.new) (K.seen sink.old) (K.seen sink.new) result }
{
    let mut frames = FrameReader::new(alloc);
    let mut progress = Progress {
        taken: 0,
        requests: 0,
    };
    'pieces: loop {
        match serve_piece(alloc, source, sink, answers, &mut frames, progress) {
            Ok(further) => progress = further,
            Err(stop) => return stop,
        }
    }
}

// Reads a piece and answers the requests that it completes.
fn serve_piece<S: Source, K: Sink, A: Answers>(
    alloc: Global,
    source: &mut S,
    sink: &mut K,
    answers: &A,
    frames: &mut FrameReader,
    progress: Progress,
) -> Result<Progress, Served>
    requires { progress.requests + held_bytes frames.old ≤ progress.taken }
    ensures counted { IfOk result (λ further. further.requests + held_bytes frames.new ≤ further.taken) }
    ensures further { IfOk result (λ further. (progress.taken ≤ MOST_BYTES) × (progress.taken < further.taken)) }
    ensures reached { IfOk result (λ further. (first : SourceSeen) (start : SinkSeen)
        → Reached (A.given answers.now) first (S.seen source.old) start (K.seen sink.old) frames.old progress
        → Reached (A.given answers.now) first (S.seen source.new) start (K.seen sink.new) frames.new further) }
    ensures stopped { IfErr result (λ stop. (first : SourceSeen) (start : SinkSeen)
        → Reached (A.given answers.now) first (S.seen source.old) start (K.seen sink.old) frames.old progress
        → Serves (A.given answers.now) first (S.seen source.new) start (K.seen sink.new) stop) }
{
    let mut room = [0u8; PIECE];
    let count = read_piece(source, frames, progress, &mut room)?;
    answer_piece(alloc, sink, answers, frames, progress, &room[..count])
}

// Puts the next bytes at the front of the room, and answers how many there are.
fn read_piece<S: Source>(
    source: &mut S,
    frames: &FrameReader,
    progress: Progress,
    room: &mut [u8],
) -> Result<usize, Served>
    requires { 0 < length room.old }
    ensures some { IfOk result (λ count. (0 < count) × (count ≤ length room.new)) }
    ensures within { OnOk result (progress.taken ≤ MOST_BYTES) }
    ensures reads { IfOk result (λ count. Reads (S.seen source.old) (S.seen source.new) (take count room.new)) }
    ensures stopped { IfErr result (StopsReading (S.seen source.old) (S.seen source.new) frames.now progress) }
{
    if progress.taken > MOST_BYTES {
        return Err(Served::Overrun);
    }
    match source.read(room) {
        Ok(0) => Err(end(frames, progress.requests)),
        Ok(count) => Ok(count),
        Err(_) => Err(Served::ReadFault),
    }
}

fn end(frames: &FrameReader, requests: u64) -> Served
    ensures { IsEnd frames.now requests result }
{
    if frames.waiting() {
        Served::Cut { requests }
    } else {
        Served::Ended { requests }
    }
}

// Answers the requests that the piece completes.
fn answer_piece<K: Sink, A: Answers>(
    alloc: Global,
    sink: &mut K,
    answers: &A,
    frames: &mut FrameReader,
    progress: Progress,
    piece: &[u8],
) -> Result<Progress, Served>
    requires counted { progress.requests + held_bytes frames.old ≤ progress.taken }
    requires within { progress.taken ≤ MOST_BYTES }
    requires few { length piece.now ≤ PIECE }
    ensures counted { IfOk result (λ further. further.requests + held_bytes frames.new ≤ further.taken) }
    ensures taken { IfOk result (λ further. further.taken ≡ progress.taken + length piece.now) }
    ensures reached { IfOk result (λ further. (first before after : SourceSeen) (start : SinkSeen)
        → Reached (A.given answers.now) first before start (K.seen sink.old) frames.old progress
        → Reads before after piece.now
        → Reached (A.given answers.now) first after start (K.seen sink.new) frames.new further) }
    ensures stopped { IfErr result (λ stop. (first before after : SourceSeen) (start : SinkSeen)
        → Reached (A.given answers.now) first before start (K.seen sink.old) frames.old progress
        → Reads before after piece.now
        → Serves (A.given answers.now) first after start (K.seen sink.new) stop) }
{
    let Ok(fed) = feed(alloc, frames, piece) else {
        return Err(Served::Memory);
    };
    let requests = answer_all(alloc, sink, answers, progress.requests, &fed.payloads)?;
    match fed.too_long {
        Some(len) => Err(Served::TooLong(len)),
        None => Ok(Progress {
            taken: progress.taken + piece.len() as u64,
            requests,
        }),
    }
}

// The payloads that a piece completes, and the length above the limit behind them, where it completes one.
#[derive(Drop)]
struct Fed {
    payloads: Vec<Vec<u8>>,
    too_long: Option<u64>,
}

fn feed(alloc: Global, frames: &mut FrameReader, piece: &[u8]) -> Result<Fed, AllocError>
    ensures count { IfOk result (λ fed. length fed.payloads.items + held_bytes frames.new ≤ held_bytes frames.old + length piece.now) }
    ensures fed { IfOk result (λ fed. (rest : List ℕ) → frames.old ≡ Rest rest
        → IsFed rest piece.now (payloads_of fed.payloads.items) fed.too_long frames.new) }
{
    let mut payloads = Vec::new(alloc);
    let refusal = match frames.feed(piece, &mut payloads) {
        Ok(()) => {
            return Ok(Fed {
                payloads,
                too_long: None,
            });
        }
        Err(refusal) => refusal,
    };
    match too_long(refusal) {
        Some(len) => Ok(Fed {
            payloads,
            too_long: Some(len),
        }),
        None => Err(AllocError),
    }
}

fn too_long(refusal: FrameRefusal<FrameFault>) -> Option<u64>
    ensures { result ≡ length_met refusal }
{
    match refusal {
        FrameRefusal::Memory => None,
        FrameRefusal::Fault(FrameFault::TooLong(len)) => Some(len),
        FrameRefusal::Fault(FrameFault::Dead(len)) => Some(len),
    }
}

// Answers the requests of payloads, of which the first has this number, and gives the number of the next.
fn answer_all<K: Sink, A: Answers>(
    alloc: Global,
    sink: &mut K,
    answers: &A,
    number: u64,
    payloads: &[Vec<u8>],
) -> Result<u64, Served>
    requires { number + length payloads.now < 2 ^ 64 }
    ensures count { IfOk result (λ next. next ≡ number + length payloads.now) }
    ensures answered { OnOk result (AreAnswered (A.given answers.now) (payloads_of payloads.now) (K.seen sink.old) (K.seen sink.new)) }
    ensures stopped { IfErr result (StopsAmong (A.given answers.now) (payloads_of payloads.now) number (K.seen sink.old) (K.seen sink.new)) }
{
    let mut next = number;
    'payloads: for payload in payloads {
        answer_payload(alloc, sink, answers, payload, next)?;
        next += 1;
    }
    Ok(next)
}

// Answers the request of the payload of this number.
fn answer_payload<K: Sink, A: Answers>(
    alloc: Global,
    sink: &mut K,
    answers: &A,
    payload: &[u8],
    number: u64,
) -> Result<(), Served>
    ensures answered { OnOk result (IsAnswered (A.given answers.now) payload.now (K.seen sink.old) (K.seen sink.new)) }
    ensures stopped { IfErr result (StopsAt (A.given answers.now) payload.now number (K.seen sink.old) (K.seen sink.new)) }
{
    let frame = frame_for(alloc, answers, payload, number)?;
    let Ok(()) = write_all(sink, &frame) else {
        return Err(Served::WriteFault);
    };
    Ok(())
}

// The frame of the reply to the request that the payload of this number spells.
fn frame_for<A: Answers>(
    alloc: Global,
    answers: &A,
    payload: &[u8],
    number: u64,
) -> Result<Vec<u8>, Served>
    ensures frame { IfOk result (λ frame. IsFrameFor (A.given answers.now) payload.now frame.items) }
    ensures stopped { IfErr result (HasNoFrame payload.now number) }
{
    let asked = match read_host(alloc, payload) {
        Ok(asked) => asked,
        Err(HostRefusal::Memory) => return Err(Served::Memory),
        Err(HostRefusal::Fault(reason)) => {
            return Err(Served::BadRequest {
                place: number,
                reason,
            });
        }
    };
    match reply_frame(alloc, answers, &asked) {
        Ok(frame) => Ok(frame),
        Err(AllocError) => Err(Served::Memory),
    }
}

// The frame of the reply to the message.
#[tactic(auto, unfolding(crate::specs::Replies::reply_frame, plugin_frames::specs::Frames::frame_of))]
fn reply_frame<A: Answers>(
    alloc: Global,
    answers: &A,
    asked: &HostMessage,
) -> Result<Vec<u8>, AllocError>
    requires { IsHostWritable asked.now }
    ensures { IfOk result (λ frame. IsFrameOfReply (A.given answers.now) asked.now frame.items) }
{
    let reply = answers.answer(alloc, asked)?;
    let payload = plugin_payload(alloc, &reply)?;
    let mut frame = Vec::from_slice(alloc, &header(payload.len() as u64))?;
    frame.extend_from_slice(&payload)?;
    Ok(frame)
}
