// Writing whole pieces.
ghost use Rattle.std.specs.Prelude.{◌≡◌, ◌≤◌, ◌<◌, ℕ, [], length, take, OnOk, OnErr};
ghost use Rattle.swift_base.specs.Told.{then_bytes, Rose};

use crate::outside::{Sink, WriteFault};

/// Writes all the bytes, in as many calls as the sink wants; no bytes make no call.
/// After a fault the sink has a proper front of them.
pub fn write_all<S: Sink>(sink: &mut S, bytes: &[u8]) -> Result<(), WriteFault>
    ensures all { OnOk result ((S.seen sink.new).held ≡ then_bytes (S.seen sink.old).held bytes.now) }
    ensures front { OnErr result ((n : ℕ) × (n < length bytes.now)
        × ((S.seen sink.new).held ≡ then_bytes (S.seen sink.old).held (take n bytes.now))) }
    ensures failed { OnErr result (Rose (S.seen sink.old).faults (S.seen sink.new).faults) }
    ensures steady { OnOk result ((S.seen sink.new).faults ≡ (S.seen sink.old).faults) }
    ensures faults { (S.seen sink.old).faults ≤ (S.seen sink.new).faults }
    ensures closing { (S.seen sink.new).closing ≡ (S.seen sink.old).closing }
    ensures no_call { bytes.now ≡ [] → sink.new ≡ sink.old }
{
    let mut rest = bytes;
    while !rest.is_empty() {
        let Ok(taken) = sink.write(rest) else {
            return Err(WriteFault::Failed);
        };
        (_, rest) = rest.split_at(taken);
    }
    Ok(())
}
