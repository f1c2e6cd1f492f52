//! Why a piece was not taken.

ghost use Rattle.std.specs.Prelude.{◌≡◌};
ghost use Rattle.plugin_frames.specs.declared.refusal.Refusal.TheVariants.{Memory};

use std::alloc::AllocError;

/// Want of memory, or a fault of what was read.
#[derive(Debug, Drop, PartialEq, Eq)]
pub enum Refusal<F> {
    Memory,
    Fault(F),
}

impl<F> From<AllocError> for Refusal<F> {
    ghost from_gives = { λ _ e. e ≡ Memory };

    fn from(_e: AllocError) -> Refusal<F> {
        Refusal::Memory
    }
}

/// What is wrong with a stream: a header spells a length, here in bytes, above `LARGEST_PAYLOAD`.
#[derive(Clone, Copy, Debug, PartialEq, Eq)]
pub enum FrameFault {
    /// This piece completes such a header.
    TooLong(u64),
    /// An earlier piece did.
    Dead(u64),
}
