// A writer that keeps what it took.
ghost use Rattle.std.specs.Prelude.{◌≡◌, ◌≤◌, ◌==◌, ◌&&◌, ◌||◌, ◌-◌, Some, None, [], length, vec_capacity, nat_lt, IfOk, if◌then◌else◌};
ghost use Rattle.swift_base.specs.Memory.{SinkState, is_listed, raised, closing_after, write_fails, write_result, after_write};

use crate::memory::{lists, raise};
use crate::outside::{Sink, WriteFault};
use std::alloc::{AllocError, Global};
use std::marker::Model;

/// A writer that keeps what it took, up to its room.
#[derive(Drop)]
pub struct MemSink {
    held: Vec<u8>,
    room: u32,
    failing: Vec<u64>,
    calls: u64,
    faults: u64,
    closing: Option<u32>,
}

impl Model for MemSink {
    ghost use Rattle.std.specs.Prelude.{length, ◌≤◌, vec_capacity};
    ghost use Rattle.swift_base.specs.Memory.{SinkState};

    ghost Value = { SinkState };

    ghost view = { λ s. record {
      held = s.held.items;
      room = s.room;
      failing = s.failing.items;
      calls = s.calls;
      faults = s.faults;
      closing = s.closing;
    } };

    ghost invariant = { λ s. (length s.held.items ≤ s.room) × (s.room ≤ vec_capacity s.held) };
}

impl MemSink {
    /// A writer with room for so many bytes, which it takes at once. The calls in `failing` fail, and so does
    /// one with a piece that isn't empty where no room is left.
    pub fn new(alloc: Global, room: u32, failing: Vec<u64>) -> Result<MemSink, AllocError>
        ensures { IfOk result (λ s. s ≡ record {
          held = [];
          room = room;
          failing = failing.items;
          calls = 0;
          faults = 0;
          closing = None;
        }) }
    {
        let held = Vec::with_capacity(alloc, room as usize)?;
        Ok(MemSink::with_room(held, room, failing))
    }

    // The room was taken already.
    pub(crate) fn with_room(held: Vec<u8>, room: u32, failing: Vec<u64>) -> MemSink
        requires empty { held.items ≡ [] }
        requires room { room ≤ vec_capacity held }
        ensures { result ≡ record {
          held = [];
          room = room;
          failing = failing.items;
          calls = 0;
          faults = 0;
          closing = None;
        } }
    {
        MemSink {
            held,
            room,
            failing,
            calls: 0,
            faults: 0,
            closing: None,
        }
    }

    /// What it holds.
    pub fn held(&self) -> &[u8]
        ensures { result.now ≡ self.now.held }
    {
        &self.held
    }
}

fn first_closing(closing: Option<u32>, held: u32, piece: usize) -> Option<u32>
    ensures { result ≡ closing_after closing held piece }
{
    match closing {
        Some(at) => Some(at),
        None if piece == 0 => Some(held),
        None => None,
    }
}

impl Sink for MemSink {
    ghost use Rattle.std.specs.Prelude.{Some};

    ghost seen = { λ s. record { faults = s.faults; held = Some s.held; closing = Some s.closing } };

    fn write(&mut self, piece: &[u8]) -> Result<usize, WriteFault>
        ensures result { result ≡ write_result self.old (length piece.now) }
        ensures after { self.new ≡ after_write self.old piece.now }
    {
        let call = self.calls;
        let held = self.held.len();
        let left = self.room as usize - held;
        self.calls = raise(call);
        self.closing = first_closing(self.closing, held as u32, piece.len());
        if lists(&self.failing, call) || (!piece.is_empty() && left == 0) {
            self.faults = raise(self.faults);
            return Err(WriteFault::Failed);
        }
        let taken = piece.len().min(left);
        let Ok(()) = self.held.extend_from_slice(&piece[..taken]) else {
            unreachable!()
        };
        Ok(taken)
    }
}
