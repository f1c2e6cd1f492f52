// Real writers.
ghost use Rattle.std.specs.Prelude.{◌≡◌, ◌≤◌, ◌<◌, Some, None, length, IfOk, OnOk, OnErr};
ghost use Rattle.swift_base.specs.Told.{Rose};

use crate::count::raise;
use std::io::Write;
use swift_base::{Sink, WriteFault};

/// A real writer: a standard stream, or the input of a child. The call with the empty piece closes it.
#[derive(Drop)]
pub struct StdSink<W: Write + Drop> {
    writer: Option<W>,
    faults: u64,
}

impl<W: Write + Drop> StdSink<W> {
    pub fn new(writer: W) -> StdSink<W>
        ensures faults { result.faults ≡ 0 }
        ensures open { result.writer ≡ Some writer }
    {
        StdSink {
            writer: Some(writer),
            faults: 0,
        }
    }
}

impl<W: Write + Drop> Sink for StdSink<W> {
    ghost seen = { λ s. record { faults = s.faults; held = None; closing = None } };

    fn write(&mut self, piece: &[u8]) -> Result<usize, WriteFault>
        ensures count { IfOk result (λ n. n ≤ length piece.now) }
        ensures some { IfOk result (λ n. 0 < length piece.now → 0 < n) }
        ensures failed { OnErr result (Rose self.old.faults self.new.faults) }
        ensures steady { OnOk result (self.new.faults ≡ self.old.faults) }
        ensures faults { self.old.faults ≤ self.new.faults }

        // The call with the empty piece lets the writer go, and from then on no byte is taken.
        ensures closes { length piece.now ≡ 0 → self.new.writer ≡ None }
        ensures stays { self.old.writer ≡ None → self.new.writer ≡ None }
        ensures shut { self.old.writer ≡ None → 0 < length piece.now → OnOk result ⊥ }
    {
        if piece.is_empty() {
            self.writer = None;
            return Ok(0);
        }
        let Some(writer) = &mut self.writer else {
            self.faults = raise(self.faults);
            return Err(WriteFault::Failed);
        };
        match writer.write(piece) {
            Ok(taken) if 0 < taken => Ok(taken),
            _ => {
                self.faults = raise(self.faults);
                Err(WriteFault::Failed)
            }
        }
    }
}
