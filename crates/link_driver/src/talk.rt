// Asking a process once more.
ghost use Rattle.std.specs.Prelude.{◌≡◌, ◌++◌, ℕ, Bool, List, length, IfOk};
ghost use Rattle.swift_base.specs.Told.{prepend};
ghost use Rattle.link_driver.specs.Links.{StopHasCause, HasNotStopped, Gains, Holds, IsGiven, IsWritten, link_seen, running_seen};
ghost use Rattle.link_driver.specs.Asking.{IsRetired, IsAnswered};

use crate::link::{Closed, Running, Stop};
use crate::pieces::read_to_stop;
use crate::replies::{Response, await_reply};
use plugin_messages::Outcome;
use std::alloc::{AllocError, Global};
use swift_base::{Sink, Source, write_all};
use unique_names::Key;

/// What became of a process that was asked once more, with the reply where it came.
#[derive(Drop)]
pub enum Answered<W: Drop, R: Drop> {
    Ready(Running<W, R>, Outcome),
    Retired(Closed<W, R>),
}

// Writes all of it, and answers whether that failed.
fn write<W: Sink>(writer: &mut W, sent: &[u8]) -> bool
    ensures { (bytes : List ℕ) → Holds bytes (W.seen writer.old) → IsGiven bytes sent.now result (W.seen writer.new) }
{
    match write_all(writer, sent) {
        Ok(()) => false,
        Err(_) => true,
    }
}

fn close<W: Sink>(writer: &mut W)
    ensures { (earlier last : List ℕ) (write_failed : Bool) → IsGiven earlier last write_failed (W.seen writer.old)
        → IsWritten earlier last write_failed (W.seen writer.new) }
{
    match writer.write(&[]) {
        Ok(_) => (),
        Err(_) => (),
    }
}

fn closed<W: Drop, R: Drop>(link: Running<W, R>, write_failed: bool, stop: Stop) -> Closed<W, R>
    ensures { result ≡ record {
      module_name = link.module_name;
      asked = link.asked;
      got = link.got;
      stop = stop;
      write_failed = write_failed;
      writer = link.writer;
      reader = link.reader;
    } }
{
    let Running {
        module_name,
        asked,
        got,
        writer,
        reader,
    } = link;
    Closed {
        module_name,
        asked,
        got,
        stop,
        write_failed,
        writer,
        reader,
    }
}

/// Closes a process's writer and reads on to its stop.
pub fn retire<W: Sink, R: Source>(
    link: Running<W, R>,
    write_failed: bool,
) -> Result<Closed<W, R>, AllocError>
    requires { HasNotStopped (R.seen link.reader) }
    ensures { IfOk result (λ closed. IsRetired (running_seen W.seen R.seen link) write_failed (link_seen W.seen R.seen closed)) }
{
    let mut link = link;
    close(&mut link.writer);
    let stop = read_to_stop(&mut link.reader, &mut link.got)?;
    Ok(closed(link, write_failed, stop))
}

/// Writes a request, and awaits its answer. A process that gives anything else is retired.
pub fn ask_process<W: Sink, R: Source>(
    alloc: Global,
    link: Running<W, R>,
    key: Key,
    sent: &[u8],
    is_first: bool,
) -> Result<Answered<W, R>, AllocError>
    requires { HasNotStopped (R.seen link.reader) }
    ensures { IfOk result (IsAnswered W.seen R.seen (running_seen W.seen R.seen link) key sent.now is_first) }
{
    let mut link = link;
    link.asked.push(key)?;
    if write(&mut link.writer, sent) {
        return Ok(Answered::Retired(retire(link, true)?));
    }
    match await_reply(alloc, &mut link.reader, &mut link.got, is_first)? {
        Response::Reply(outcome) => Ok(Answered::Ready(link, outcome)),
        Response::Other => Ok(Answered::Retired(retire(link, false)?)),
        Response::Stopped(stop) => {
            close(&mut link.writer);
            Ok(Answered::Retired(closed(link, false, stop)))
        }
    }
}
