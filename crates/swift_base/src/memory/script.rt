// What a link in memory does.
use crate::listed::Listed;
use crate::text::Text;

/// A link to be started: its reader gives `gives` in `pieces` and its calls in `failing_reads` fail; its writer
/// has so much `room` and its calls in `failing_writes` fail. See `MemSource::new` and `MemSink::new`.
#[derive(Drop)]
pub struct MemScript {
    pub gives: Text,
    pub pieces: Listed<u32>,
    pub failing_reads: Listed<u64>,
    pub failing_writes: Listed<u64>,
    pub room: u32,
}
