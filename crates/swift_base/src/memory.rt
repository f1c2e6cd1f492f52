// The outside in memory, for tests and for callers that have their bytes already. Each call does exactly what
// the lists say that it was made from: the calls in `failing`, counted from 0, fail, and no other call does
// but for the reasons named at it.
mod files;
mod script;
mod sink;
mod source;
mod starter;

pub use files::MemFiles;
pub use script::MemScript;
pub use sink::MemSink;
pub use source::MemSource;
pub use starter::MemStarter;

// A count, one higher, or at its end.
ghost use Rattle.std.specs.Prelude.{◌≡◌};
ghost use Rattle.swift_base.specs.Memory.{raised, is_listed};

pub(crate) fn raise(count: u64) -> u64
    ensures { result ≡ raised count }
{
    count.saturating_add(1)
}

pub(crate) fn lists(calls: &[u64], call: u64) -> bool
    ensures { result ≡ is_listed calls.now call }
{
    calls.iter().any(|c| *c == call)
}
