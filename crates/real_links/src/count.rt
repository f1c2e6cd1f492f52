// Counts of faults and of ends.
ghost use Rattle.std.specs.Prelude.{◌≤◌};
ghost use Rattle.swift_base.specs.Told.{Rose};

pub(crate) fn raise(count: u64) -> u64
    ensures rose { Rose count result }
    ensures grows { count ≤ result }
{
    count.saturating_add(1)
}
