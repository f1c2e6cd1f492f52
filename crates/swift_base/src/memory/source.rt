// A reader over bytes.
ghost use Rattle.std.specs.Prelude.{◌≡◌, ◌≤◌, Some, [], length, take, min, IfOk, slice_get, if◌then◌else◌, ◌&&◌, ◌==◌, nat_lt};
ghost use Rattle.swift_base.specs.Memory.{SourceState, raised, at_most_piece, read_result, after_read};

use crate::memory::{lists, raise};
use crate::outside::{ReadFault, Source};
use std::marker::Model;

/// A reader over bytes that gives them in pieces of given sizes.
#[derive(Drop)]
pub struct MemSource {
    bytes: Vec<u8>,
    taken: usize,
    pieces: Vec<u32>,
    failing: Vec<u64>,
    calls: u64,
    faults: u64,
    ends: u64,
}

impl Model for MemSource {
    ghost use Rattle.std.specs.Prelude.{drop, length, ◌≤◌};
    ghost use Rattle.swift_base.specs.Memory.{SourceState};

    ghost Value = { SourceState };

    ghost view = { λ s. record {
      left = drop s.taken s.bytes.items;
      pieces = s.pieces.items;
      failing = s.failing.items;
      calls = s.calls;
      faults = s.faults;
      ends = s.ends;
    } };

    ghost invariant = { λ s. s.taken ≤ length s.bytes.items };
}

impl MemSource {
    /// Call k, from 0, gives at most `pieces[k]` bytes, where 0 counts as 1; past the last piece a call gives
    /// all that fits. The calls in `failing` fail.
    pub fn new(bytes: Vec<u8>, pieces: Vec<u32>, failing: Vec<u64>) -> MemSource
        ensures { result ≡ record {
          left = bytes.items;
          pieces = pieces.items;
          failing = failing.items;
          calls = 0;
          faults = 0;
          ends = 0;
        } }
    {
        MemSource {
            bytes,
            taken: 0,
            pieces,
            failing,
            calls: 0,
            faults: 0,
            ends: 0,
        }
    }
}

fn piece_at(pieces: &[u32], call: u64, most: usize) -> usize
    ensures { result ≡ at_most_piece (slice_get pieces.now call) most }
{
    match pieces.get(call as usize) {
        Some(piece) => (*piece as usize).max(1).min(most),
        None => most,
    }
}

fn ends_after(ends: u64, room: usize, left: usize) -> u64
    ensures { result ≡ (if nat_lt 0 room && (left == 0) then raised ends else ends) }
{
    if 0 < room && left == 0 {
        raise(ends)
    } else {
        ends
    }
}

impl Source for MemSource {
    ghost use Rattle.std.specs.Prelude.{Some};

    ghost seen = { λ s. record { faults = s.faults; ends = s.ends; left = Some s.left } };

    fn read(&mut self, room: &mut [u8]) -> Result<usize, ReadFault>
        ensures result { result ≡ read_result self.old (length room.old) }
        ensures after { self.new ≡ after_read self.old (length room.old) }
        ensures bytes { IfOk result (λ n. take n room.new ≡ take n self.old.left) }
    {
        let call = self.calls;
        self.calls = raise(call);
        if lists(&self.failing, call) {
            self.faults = raise(self.faults);
            return Err(ReadFault::Failed);
        }
        let left = self.bytes.len() - self.taken;
        let count = piece_at(&self.pieces, call, room.len().min(left));
        room[..count].copy_from_slice(&self.bytes[self.taken..self.taken + count]);
        self.taken += count;
        self.ends = ends_after(self.ends, room.len(), left);
        Ok(count)
    }
}
