// Real readers.
ghost use Rattle.std.specs.Prelude.{◌≡◌, ◌<◌, ◌↔◌, IsTrue, None};

use crate::count::raise;
use std::io::Read;
use swift_base::{ReadFault, Source};

/// A real reader: a standard stream or the output of a child.
#[derive(Drop)]
pub struct StdSource<R: Read + Drop> {
    reader: R,
    faults: u64,
    ends: u64,
}

impl<R: Read + Drop> StdSource<R> {
    pub fn new(reader: R) -> StdSource<R>
        ensures faults { result.faults ≡ 0 }
        ensures ends { result.ends ≡ 0 }
        ensures reader { result.reader ≡ reader }
    {
        StdSource {
            reader,
            faults: 0,
            ends: 0,
        }
    }

    /// It came to its end.
    pub fn has_ended(&self) -> bool
        ensures { IsTrue result ↔ (0 < self.now.ends) }
    {
        0 < self.ends
    }
}

impl<R: Read + Drop> Source for StdSource<R> {
    ghost seen = { λ s. record { faults = s.faults; ends = s.ends; left = None } };

    fn read(&mut self, room: &mut [u8]) -> Result<usize, ReadFault> {
        match self.reader.read(room) {
            Ok(0) if !room.is_empty() => {
                self.ends = raise(self.ends);
                Ok(0)
            }
            Ok(count) => Ok(count),
            Err(_) => {
                self.faults = raise(self.faults);
                Err(ReadFault::Failed)
            }
        }
    }
}
