// Starting a process for a request, and asking it.
ghost use Rattle.std.specs.Prelude.{◌≡◌, ◌<◌, ◌++◌, ◌∷◌, [], List, None, IfOk};
ghost use Rattle.swift_base.specs.Outside.{StarterSeen};
ghost use Rattle.plugin_messages.specs.Writable.{IsRequestWritable};
ghost use Rattle.link_driver.specs.Links.{HasNotStopped, running_seen};
ghost use Rattle.link_driver.specs.Requests.{Wanted, wanted_of, bytes_for};
ghost use Rattle.link_driver.specs.Driven.{done_seen, driver_seen, IsSound, IsSpent, IsDriven};
ghost use Rattle.link_driver.specs.Asking.{IsAskedOf};
ghost use Rattle.link_driver.specs.LinkTable.{Look};
ghost use Rattle.link_driver.specs.Told.{HasTable, IsPut, driver_keys};
ghost use Rattle.link_driver.specs.Kept.{KeepsWhatReplies};
ghost use Rattle.std.specs.List.{Contains};

use crate::driver::{Asked, Done, Driver};
use crate::frames::write_for;
use crate::link::{Running, Unstarted};
use crate::retiring::with_closed;
use crate::table::last_outcome;
use crate::talk::{Answered, ask_process};
use plugin_frames::{frames_are_read, frames_go_on, one_reading};
use plugin_messages::{Cause, Outcome, Request};
use std::alloc::{AllocError, Global};
use swift_base::{Sink, Source, StartFault, Starter};
use unique_names::Key;

/// Asks a process, and keeps it where it may be asked again.
pub fn ask_running<W: Sink, R: Source>(
    alloc: Global,
    done: Done<W, R>,
    link: Running<W, R>,
    request: &Request,
    is_first: bool,
) -> Result<Asked<W, R>, AllocError>
    requires goes_on { HasNotStopped (R.seen link.reader) }
    requires writable { IsRequestWritable request.now }
    ensures sound { IfOk result (λ a. IsSound (driver_seen W.seen R.seen a.driver)) }
    ensures asked { IfOk result (λ a. IsAskedOf (done_seen W.seen R.seen done None) (running_seen W.seen R.seen link)
        request.now.key (bytes_for is_first request.now) is_first a.outcome (driver_seen W.seen R.seen a.driver)) }
{
    let sent = write_for(alloc, request, is_first)?;
    let key = request.key.clone()?;
    match ask_process(alloc, link, key, &sent, is_first)? {
        Answered::Ready(link, outcome) => Ok(Asked {
            driver: Driver {
                done,
                running: Some(link),
            },
            outcome: Some(outcome),
        }),
        Answered::Retired(link) => {
            let outcome = last_outcome(alloc, &link)?;
            let done = with_closed(done, link)?;
            Ok(Asked {
                driver: Driver {
                    done,
                    running: None,
                },
                outcome,
            })
        }
    }
}

fn with_unstarted<W: Drop, R: Drop>(
    done: Done<W, R>,
    entry: Unstarted,
) -> Result<Done<W, R>, AllocError>
    ensures closed { IfOk result (λ next. next.closed.items ≡ done.closed.items) }
    ensures unstarted { IfOk result (λ next. next.unstarted.items ≡ done.unstarted.items ++ entry ∷ []) }
    ensures room { IfOk result (λ next. next.room ≡ done.room) }
{
    let Done {
        closed,
        mut unstarted,
        room,
    } = done;
    unstarted.push(entry)?;
    Ok(Done {
        closed,
        unstarted,
        room,
    })
}

fn just_started<W: Drop, R: Drop>(
    alloc: Global,
    request: &Request,
    writer: W,
    reader: R,
) -> Result<Running<W, R>, AllocError>
    ensures module_name { IfOk result (λ link. link.module_name ≡ request.now.target.module) }
    ensures asked { IfOk result (λ link. link.asked.items ≡ []) }
    ensures got { IfOk result (λ link. link.got.items ≡ []) }
    ensures writer { IfOk result (λ link. link.writer ≡ writer) }
    ensures reader { IfOk result (λ link. link.reader ≡ reader) }
{
    Ok(Running {
        module_name: request.target.module.clone()?,
        asked: Vec::new(alloc),
        got: Vec::new(alloc),
        writer,
        reader,
    })
}

/// Starts a process, and asks it; a failed start is put down with the request's key.
pub fn ask_started<P: Starter>(
    alloc: Global,
    done: Done<P::Writer, P::Reader>,
    starter: &mut P,
    command: &str,
    request: &Request,
) -> Result<Asked<P::Writer, P::Reader>, AllocError>
    requires { IsRequestWritable request.now }
    ensures sound { IfOk result (λ a. IsSound (driver_seen P.Writer.seen P.Reader.seen a.driver)) }
    ensures driven { (wanted : List Wanted) (before : StarterSeen) → 0 < done.room
        → IsDriven wanted before (done_seen P.Writer.seen P.Reader.seen done None) (P.seen starter.old)
        → IfOk result (λ a. IsDriven (wanted ++ wanted_of command.now request.now ∷ []) before
        (driver_seen P.Writer.seen P.Reader.seen a.driver) (P.seen starter.new)) }
    ensures table { (table after : Look) → 0 < done.room → HasTable table (done_seen P.Writer.seen P.Reader.seen done None)
        → table request.now.key ≡ None → IfOk result (λ a. IsPut table request.now.key a.outcome after
        → HasTable after (driver_seen P.Writer.seen P.Reader.seen a.driver)) }
    ensures spent { IfOk result (λ a. a.outcome ≡ None → IsSpent (driver_seen P.Writer.seen P.Reader.seen a.driver)) }
    ensures kept { ¬ Contains (driver_keys (done_seen P.Writer.seen P.Reader.seen done None)) request.now.key
        → IfOk result (λ a. KeepsWhatReplies request.now.key (driver_seen P.Writer.seen P.Reader.seen a.driver).links) }
{
    frames_are_read();
    frames_go_on();
    one_reading();
    let before = starter.faults();
    match starter.start(alloc, command) {
        Ok((writer, reader)) => {
            let link = just_started(alloc, request, writer, reader)?;
            ask_running(alloc, done, link, request, true)
        }
        Err(StartFault::Memory) => Err(AllocError),
        Err(StartFault::Failed) => {
            let after = starter.faults();
            let key = request.key.clone()?;
            let done = with_unstarted(done, Unstarted { key, before, after })?;
            Ok(Asked {
                driver: Driver {
                    done,
                    running: None,
                },
                outcome: Some(Outcome::Failed(Cause::NoReply)),
            })
        }
    }
}
