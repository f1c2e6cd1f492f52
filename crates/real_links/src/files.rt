// Real files.
ghost use Rattle.std.specs.Prelude.{◌≡◌, None, ◌≤◌, length, vec_len, IfOk};

use crate::count::raise;
use std::alloc::Global;
use std::fs;
use std::io::{self, ErrorKind, Read};
use std::rt::Files as HostFiles;
use swift_base::{FileFault, Files};

/// Reads real files. Anything but want of memory counts as a fault.
#[derive(Drop)]
pub struct StdFiles<R: HostFiles + Drop> {
    rt: R,
    faults: u64,
}

impl<R: HostFiles + Drop> StdFiles<R> {
    pub fn new(rt: R) -> StdFiles<R>
        ensures faults { result.faults ≡ 0 }
        ensures rt { result.rt ≡ rt }
    {
        StdFiles { rt, faults: 0 }
    }
}

// One byte more than the limit shows that there are more.
fn read_up_to<R: HostFiles>(alloc: Global, rt: &R, name: &str, limit: u32) -> io::Result<Vec<u8>> {
    let mut bytes = Vec::new(alloc);
    let file = fs::open(rt, name)?;
    file.take(u64::from(limit) + 1).read_to_end(&mut bytes)?;
    Ok(bytes)
}

impl<R: HostFiles + Drop> Files for StdFiles<R> {
    ghost seen = { λ s. record { faults = s.faults; contents = None; names = None } };

    fn read(&mut self, alloc: Global, name: &str, limit: u32) -> Result<Vec<u8>, FileFault> {
        match read_up_to(alloc, &self.rt, name, limit) {
            Ok(bytes) if bytes.len() <= limit as usize => Ok(bytes),
            Ok(_) => Err(FileFault::Larger),
            Err(error) if error.kind() == ErrorKind::OutOfMemory => Err(FileFault::Memory),
            Err(_) => {
                self.faults = raise(self.faults);
                Err(FileFault::Failed)
            }
        }
    }
}
