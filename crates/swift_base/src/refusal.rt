// Why a call gave nothing.
ghost use Rattle.std.specs.Prelude.{◌≡◌};
ghost use Rattle.swift_base.specs.declared.refusal.Refusal.TheVariants.{Memory};

use std::alloc::AllocError;

/// Want of memory, which has no further cause, or a fault of the input.
#[derive(Clone, Copy, Debug, PartialEq, Eq)]
pub enum Refusal<F> {
    Memory,
    Fault(F),
}

impl<F> From<AllocError> for Refusal<F> {
    ghost from_gives = { λ _ e. e ≡ Memory };

    fn from(_: AllocError) -> Refusal<F> {
        Refusal::Memory
    }
}
