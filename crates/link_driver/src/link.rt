// Processes that were started, and starts that failed.
use swift_base::Text;
use unique_names::Key;

/// How a process's output came to its end: it ended, a read failed, or it gave more than is read of one process.
#[derive(Clone, Copy, Debug, PartialEq, Eq)]
pub enum Stop {
    Ended,
    Failed,
    Overrun,
}

/// A process that was asked, as it was when its output had stopped: `got` is all that it gave.
#[derive(Drop)]
pub struct Closed<W: Drop, R: Drop> {
    pub module_name: Text,
    pub asked: Vec<Key>,
    pub got: Vec<u8>,
    pub stop: Stop,
    pub write_failed: bool,
    pub writer: W,
    pub reader: R,
}

/// A process that was just started, or that has answered all that it was asked and may be asked again.
#[derive(Drop)]
pub struct Running<W: Drop, R: Drop> {
    pub module_name: Text,
    pub asked: Vec<Key>,
    pub got: Vec<u8>,
    pub writer: W,
    pub reader: R,
}

/// A request whose process could not be started: the starter's count of faults before and after that start.
#[derive(Drop)]
pub struct Unstarted {
    pub key: Key,
    pub before: u64,
    pub after: u64,
}

/// A process that has given more bytes is read no further, and once all processes together have, none is asked.
pub const MOST_BYTES: usize = 67_108_864;
