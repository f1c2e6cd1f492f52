// Links that are started one after another.
ghost use Rattle.std.specs.Prelude.{◌≡◌, ◌++◌, ◌∷◌, ◌==◌, ◌||◌, [], Some, None, true, false, length, drop, IfOk, IfSome, OnOk, IsErrOf, slice_get};
ghost use Rattle.swift_base.specs.Memory.{raised, is_listed};
ghost use Rattle.swift_base.specs.MemoryStarter.{StarterState, start_fails, after_start, after_failed_start, fresh_writer, fresh_reader};

use crate::memory::{MemScript, MemSink, MemSource, lists, raise};
use crate::outside::{StartFault, Starter};
use crate::text::Text;
use std::alloc::Global;
use std::marker::Model;

/// Starts links of scripts, in order, whatever the command.
#[derive(Drop)]
pub struct MemStarter {
    links: Vec<MemScript>,
    failing: Vec<u64>,
    calls: u64,
    faults: u64,
    started: Vec<Text>,
    failed: Vec<Text>,
}

impl Model for MemStarter {
    ghost use Rattle.swift_base.specs.MemoryStarter.{StarterState};

    ghost Value = { StarterState };

    ghost view = { λ s. record {
      links = s.links.items;
      failing = s.failing.items;
      calls = s.calls;
      faults = s.faults;
      started = s.started.items;
      failed = s.failed.items;
    } };
}

impl MemStarter {
    /// The calls in `failing`, counted from 0, fail, and so does one past the last link. A call that finds no
    /// memory changes nothing and isn't counted.
    pub fn new(alloc: Global, links: Vec<MemScript>, failing: Vec<u64>) -> MemStarter
        ensures { result ≡ record {
          links = links.items;
          failing = failing.items;
          calls = 0;
          faults = 0;
          started = [];
          failed = [];
        } }
    {
        MemStarter {
            links,
            failing,
            calls: 0,
            faults: 0,
            started: Vec::new(alloc),
            failed: Vec::new(alloc),
        }
    }
}

impl Starter for MemStarter {
    type Writer = MemSink;

    type Reader = MemSource;

    ghost use Rattle.std.specs.Prelude.{Some};
    ghost use Rattle.swift_base.specs.MemoryStarter.{links_of, commands_of};

    ghost seen = { λ s. record { faults = s.faults; links = Some (links_of s.links); commands = Some (commands_of s) } };

    fn start(&mut self, alloc: Global, command: &str) -> Result<(MemSink, MemSource), StartFault>
        ensures ok { OnOk result (start_fails self.old ≡ false) }
        ensures ends { IfOk result (λ p. IfSome (slice_get self.old.links 0)
            (λ script. (p.0 ≡ fresh_writer script) × (p.1 ≡ fresh_reader script))) }
        ensures after { OnOk result (self.new ≡ after_start self.old command.now) }
        ensures failed { IsErrOf result StartFault.Failed → start_fails self.old ≡ true }
        ensures after_failed { IsErrOf result StartFault.Failed → self.new ≡ after_failed_start self.old command.now }
        ensures memory { IsErrOf result StartFault.Memory → self.new ≡ self.old }
    {
        let given = Text::from_bytes(alloc, command.as_bytes()).map_err(|_| StartFault::Memory)?;
        if lists(&self.failing, self.calls) || self.links.is_empty() {
            if self.failed.push(given).is_err() {
                return Err(StartFault::Memory);
            }
            self.calls = raise(self.calls);
            self.faults = raise(self.faults);
            return Err(StartFault::Failed);
        }
        let room = self.links[0].room;
        let held = Vec::with_capacity(alloc, room as usize).map_err(|_| StartFault::Memory)?;
        if self.started.push(given).is_err() {
            return Err(StartFault::Memory);
        }
        self.calls = raise(self.calls);
        let MemScript {
            gives,
            pieces,
            failing_reads,
            failing_writes,
            room: _,
        } = self.links.remove(0);
        let writer = MemSink::with_room(held, room, failing_writes.into_vec());
        let reader = MemSource::new(
            gives.into_vec(),
            pieces.into_vec(),
            failing_reads.into_vec(),
        );
        Ok((writer, reader))
    }

    fn faults(&self) -> u64 {
        self.faults
    }
}
