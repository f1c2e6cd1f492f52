// What holds of each run: a call brings the law in as a fact.
ghost use Rattle.link_driver.specs.Laws.{RunsAskOnce, ProcessesServe, OnlyLastKeysFail, RunsGiveLinks, RunsStartAsWanted, FailedStartsHaveCauses, StopsHaveCauses, NothingWantedNothingDone};

use plugin_frames::{frames_go_on, one_reading};

/// Each request is asked once, or left where the processes gave more bytes than are read.
pub fn each_request_is_asked_once()
    ensures once { RunsAskOnce }
    ensures none { NothingWantedNothingDone }
{}

/// Each process was asked requests of its module, in order, was given their frames, and stopped for a cause.
pub fn processes_serve()
    ensures serves { ProcessesServe }
    ensures stops { StopsHaveCauses }
{}

/// Each key of a process but its last has a reply.
pub fn only_last_keys_fail()
    ensures { OnlyLastKeysFail }
{
    one_reading();
    frames_go_on();
}

/// What was started is what was wanted, and each failed start has its cause.
pub fn starts_are_wanted()
    ensures links { RunsGiveLinks }
    ensures commands { RunsStartAsWanted }
    ensures failed { FailedStartsHaveCauses }
{}
