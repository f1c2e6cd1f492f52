// The driver: one process at a time, asked for one key after another.
ghost use Rattle.std.specs.Prelude.{◌≡◌, ◌<◌, ◌++◌, ◌∷◌, [], List, Some, None, nat_le, map, option_map, IfOk};
ghost use Rattle.swift_base.specs.Outside.{StarterSeen};
ghost use Rattle.plugin_messages.specs.Writable.{IsRequestWritable};
ghost use Rattle.std.specs.Bool.{Decides};
ghost use Rattle.std.specs.List.{Contains};
ghost use Rattle.link_driver.specs.LinkTable.{Look, IsRunTable};
ghost use Rattle.link_driver.specs.Told.{HasTable, IsPut, driver_keys};
ghost use Rattle.link_driver.specs.Kept.{KeepsWhatReplies};
ghost use Rattle.link_driver.specs.Links.{KeySteps, RunningSeen, link_seen, running_seen};
ghost use Rattle.link_driver.specs.Requests.{Wanted, wanted_of};
ghost use Rattle.link_driver.specs.Driven.{driver_seen, IsSound, IsSpent, IsDriven, bytes_of, running_bytes};
ghost use Rattle.link_driver.specs.Ran.{HasRun};

use crate::link::{Closed, MOST_BYTES, Running, Unstarted};
use crate::retiring::{keep_for, stopped};
use crate::starting::{ask_running, ask_started};
use plugin_frames::{frames_go_on, one_reading};
use plugin_messages::{Outcome, Request};
use std::alloc::{AllocError, Global};
use swift_base::{Sink, Source, Starter};

/// The processes that are asked nothing more, the starts that failed, and how many bytes may still come before
/// nothing more is asked.
#[derive(Drop)]
pub(crate) struct Done<W: Drop, R: Drop> {
    pub closed: Vec<Closed<W, R>>,
    pub unstarted: Vec<Unstarted>,
    pub room: usize,
}

/// What was done so far, and the process that may be asked again, where there is one.
#[derive(Drop)]
pub struct Driver<W: Drop, R: Drop> {
    pub(crate) done: Done<W, R>,
    pub(crate) running: Option<Running<W, R>>,
}

/// What was done: the processes in the order of their starts, and the failed starts in theirs.
#[derive(Drop)]
pub struct Ran<W: Drop, R: Drop> {
    pub links: Vec<Closed<W, R>>,
    pub unstarted: Vec<Unstarted>,
}

impl<W: Sink, R: Source> Driver<W, R> {
    /// Nothing is asked yet. This takes no memory.
    pub fn new(alloc: Global) -> Driver<W, R>
        ensures sound { IsSound (driver_seen W.seen R.seen result) }
        ensures driven { (before : StarterSeen) → IsDriven [] before (driver_seen W.seen R.seen result) before }
        ensures table { (table : Look) → ((key : KeySteps) → table key ≡ None) → HasTable table (driver_seen W.seen R.seen result) }
    {
        Driver {
            done: Done {
                closed: Vec::new(alloc),
                unstarted: Vec::new(alloc),
                room: MOST_BYTES + 1,
            },
            running: None,
        }
    }
}

/// Whether all processes together have given more than `MOST_BYTES` bytes, so that nothing more is asked.
pub fn is_spent<W: Sink, R: Source>(driver: &Driver<W, R>) -> bool
    ensures room { result ≡ nat_le driver.now.done.room (running_bytes (option_map (running_seen W.seen R.seen) driver.now.running)) }
    ensures driven { (wanted : List Wanted) (before after : StarterSeen) → IsDriven wanted before (driver_seen W.seen R.seen driver.now) after
        → Decides result (IsSpent (driver_seen W.seen R.seen driver.now)) }
{
    match &driver.running {
        Some(link) => driver.done.room <= link.got.len(),
        None => driver.done.room == 0,
    }
}

/// What was done with one request more, and its outcome: none where it wasn't asked, or where its process gave more than
/// `MOST_BYTES` bytes without a whole reply.
#[derive(Drop)]
pub struct Asked<W: Drop, R: Drop> {
    pub driver: Driver<W, R>,
    pub outcome: Option<Outcome>,
}

/// Asks one request: of the process that runs, where it is the request's module's, else of one that is started for it
/// once the former has stopped. Nothing is asked once all processes together have given more than `MOST_BYTES` bytes.
pub fn ask<P: Starter>(
    alloc: Global,
    driver: Driver<P::Writer, P::Reader>,
    starter: &mut P,
    command: &str,
    request: &Request,
) -> Result<Asked<P::Writer, P::Reader>, AllocError>
    requires sound { IsSound (driver_seen P.Writer.seen P.Reader.seen driver) }
    requires writable { IsRequestWritable request.now }
    ensures sound { IfOk result (λ a. IsSound (driver_seen P.Writer.seen P.Reader.seen a.driver)) }
    ensures driven { (wanted : List Wanted) (before : StarterSeen)
        → IsDriven wanted before (driver_seen P.Writer.seen P.Reader.seen driver) (P.seen starter.old)
        → IfOk result (λ a. IsDriven (wanted ++ wanted_of command.now request.now ∷ []) before
        (driver_seen P.Writer.seen P.Reader.seen a.driver) (P.seen starter.new)) }
    ensures table { (table after : Look) → HasTable table (driver_seen P.Writer.seen P.Reader.seen driver) → table request.now.key ≡ None
        → IfOk result (λ a. IsPut table request.now.key a.outcome after → HasTable after (driver_seen P.Writer.seen P.Reader.seen a.driver)) }
    ensures again { (link : RunningSeen) → (driver_seen P.Writer.seen P.Reader.seen driver).running ≡ Some link → link.module_name ≡ request.now.target.module
        → IfOk result (λ _. P.seen starter.new ≡ P.seen starter.old) }
    ensures spent { (table : Look) → HasTable table (driver_seen P.Writer.seen P.Reader.seen driver)
        → IfOk result (λ a. a.outcome ≡ None → IsSpent (driver_seen P.Writer.seen P.Reader.seen a.driver)) }
    ensures kept { (table : Look) → HasTable table (driver_seen P.Writer.seen P.Reader.seen driver)
        → ¬ Contains (driver_keys (driver_seen P.Writer.seen P.Reader.seen driver)) request.now.key
        → IfOk result (λ a. KeepsWhatReplies request.now.key (driver_seen P.Writer.seen P.Reader.seen a.driver).links) }
{
    frames_go_on();
    one_reading();
    let driver = keep_for(driver, request.target.module.bytes())?;
    if is_spent(&driver) {
        return Ok(Asked {
            driver,
            outcome: None,
        });
    }
    let Driver { done, running } = driver;
    match running {
        Some(link) => ask_running(alloc, done, link, request, false),
        None => ask_started(alloc, done, starter, command, request),
    }
}

/// Retires the process that runs, and hands out what was done.
pub fn finish<W: Sink, R: Source>(driver: Driver<W, R>) -> Result<Ran<W, R>, AllocError>
    requires { IsSound (driver_seen W.seen R.seen driver) }
    ensures ran { (wanted : List Wanted) (before after : StarterSeen) → IsDriven wanted before (driver_seen W.seen R.seen driver) after
        → IfOk result (λ ran. HasRun wanted before (map (link_seen W.seen R.seen) ran.links.items) ran.unstarted.items after) }
    ensures table { (table : Look) → HasTable table (driver_seen W.seen R.seen driver)
        → IfOk result (λ ran. IsRunTable table (map (link_seen W.seen R.seen) ran.links.items) ran.unstarted.items) }
    ensures spent { IsSpent (driver_seen W.seen R.seen driver)
        → IfOk result (λ ran. MOST_BYTES < bytes_of (map (link_seen W.seen R.seen) ran.links.items)) }
{
    let done = stopped(driver)?;
    Ok(Ran {
        links: done.closed,
        unstarted: done.unstarted,
    })
}
