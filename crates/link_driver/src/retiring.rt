// Processes that are asked nothing more.
ghost use Rattle.std.specs.Prelude.{◌≡◌, ◌++◌, ◌∷◌, [], ◌-◌, List, Some, None, length, IfOk};
ghost use Rattle.swift_base.specs.Outside.{StarterSeen};
ghost use Rattle.std.specs.List.{Contains};
ghost use Rattle.link_driver.specs.Links.{KeySteps, RunningSeen, HasNotStopped, running_seen};
ghost use Rattle.link_driver.specs.Requests.{Wanted};
ghost use Rattle.link_driver.specs.LinkTable.{Look};
ghost use Rattle.link_driver.specs.Told.{HasTable, driver_keys};
ghost use Rattle.link_driver.specs.Driven.{done_seen, driver_seen, IsSound, IsSpent, RunsFor, IsDriven};

use crate::driver::{Done, Driver};
use crate::link::{Closed, Running};
use crate::talk::retire;
use plugin_frames::{frames_go_on, one_reading};
use std::alloc::AllocError;
use swift_base::{Sink, Source};

/// One process more that is asked nothing more.
pub fn with_closed<W: Drop, R: Drop>(
    done: Done<W, R>,
    link: Closed<W, R>,
) -> Result<Done<W, R>, AllocError>
    ensures closed { IfOk result (λ next. next.closed.items ≡ done.closed.items ++ link ∷ []) }
    ensures unstarted { IfOk result (λ next. next.unstarted.items ≡ done.unstarted.items) }
    ensures room { IfOk result (λ next. next.room ≡ done.room - length link.got.items) }
{
    let Done {
        mut closed,
        unstarted,
        room,
    } = done;
    let room = room.saturating_sub(link.got.len());
    closed.push(link)?;
    Ok(Done {
        closed,
        unstarted,
        room,
    })
}

// Retires the process that runs.
fn with_retired<W: Sink, R: Source>(
    done: Done<W, R>,
    link: Running<W, R>,
) -> Result<Done<W, R>, AllocError>
    requires { HasNotStopped (R.seen link.reader) }
    ensures driven { (wanted : List Wanted) (before after : StarterSeen)
        → IsDriven wanted before (done_seen W.seen R.seen done (Some (running_seen W.seen R.seen link))) after
        → IfOk result (λ next. IsDriven wanted before (done_seen W.seen R.seen next None) after) }
    ensures table { (table : Look) → HasTable table (done_seen W.seen R.seen done (Some (running_seen W.seen R.seen link)))
        → IfOk result (λ next. HasTable table (done_seen W.seen R.seen next None)) }
    ensures spent { IsSpent (done_seen W.seen R.seen done (Some (running_seen W.seen R.seen link)))
        → IfOk result (λ next. IsSpent (done_seen W.seen R.seen next None)) }
    ensures keys { (key : KeySteps) → IfOk result (λ next. Contains (driver_keys (done_seen W.seen R.seen next None)) key
        → Contains (driver_keys (done_seen W.seen R.seen done (Some (running_seen W.seen R.seen link)))) key) }
{
    frames_go_on();
    one_reading();
    let closed = retire(link, false)?;
    with_closed(done, closed)
}

/// Retires the process that runs, where there is one.
pub fn stopped<W: Sink, R: Source>(driver: Driver<W, R>) -> Result<Done<W, R>, AllocError>
    requires { IsSound (driver_seen W.seen R.seen driver) }
    ensures driven { (wanted : List Wanted) (before after : StarterSeen) → IsDriven wanted before (driver_seen W.seen R.seen driver) after
        → IfOk result (λ next. IsDriven wanted before (done_seen W.seen R.seen next None) after) }
    ensures table { (table : Look) → HasTable table (driver_seen W.seen R.seen driver)
        → IfOk result (λ next. HasTable table (done_seen W.seen R.seen next None)) }
    ensures spent { IsSpent (driver_seen W.seen R.seen driver) → IfOk result (λ next. IsSpent (done_seen W.seen R.seen next None)) }
{
    let Driver { done, running } = driver;
    match running {
        None => Ok(done),
        Some(link) => with_retired(done, link),
    }
}

/// Retires the process that runs, where it is another module's.
pub fn keep_for<W: Sink, R: Source>(
    driver: Driver<W, R>,
    module_name: &[u8],
) -> Result<Driver<W, R>, AllocError>
    requires { IsSound (driver_seen W.seen R.seen driver) }
    ensures sound { IfOk result (λ next. IsSound (driver_seen W.seen R.seen next)) }
    ensures of_module { IfOk result (λ next. RunsFor module_name.now (driver_seen W.seen R.seen next).running) }
    ensures keeps { (link : RunningSeen) → (driver_seen W.seen R.seen driver).running ≡ Some link → link.module_name ≡ module_name.now
        → IfOk result (λ next. driver_seen W.seen R.seen next ≡ driver_seen W.seen R.seen driver) }
    ensures driven { (wanted : List Wanted) (before after : StarterSeen) → IsDriven wanted before (driver_seen W.seen R.seen driver) after
        → IfOk result (λ next. IsDriven wanted before (driver_seen W.seen R.seen next) after) }
    ensures table { (table : Look) → HasTable table (driver_seen W.seen R.seen driver)
        → IfOk result (λ next. HasTable table (driver_seen W.seen R.seen next)) }
    ensures keys { (key : KeySteps) → IfOk result (λ next. Contains (driver_keys (driver_seen W.seen R.seen next)) key
        → Contains (driver_keys (driver_seen W.seen R.seen driver)) key) }
{
    let Driver { done, running } = driver;
    let Some(link) = running else {
        return Ok(Driver {
            done,
            running: None,
        });
    };
    if link.module_name.bytes() == module_name {
        return Ok(Driver {
            done,
            running: Some(link),
        });
    }
    let done = with_retired(done, link)?;
    Ok(Driver {
        done,
        running: None,
    })
}
