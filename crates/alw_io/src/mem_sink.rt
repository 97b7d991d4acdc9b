ghost use Rattle.std.specs.Prelude.{◌≡◌, ◌-◌, ◌^◌, ◌≤◌, ◌↔◌, ◌⊎◌, [], Some, length, Contains, IsErr, IfOk, is_err, if◌then◌else◌};
ghost use Rattle.std.specs.Io.{WritesAtMost};
ghost use Rattle.std.specs.Io.KnownBytes.{WriteAppends};
ghost use Rattle.alw_io.specs.Outside.{raised, HasCause};
ghost use Rattle.alw_io.specs.Scripted.{starting_sink, least, IsFullFor};

use crate::outside::{Failed, Sink};
use crate::plan::is_planned;
use alw_num::NoMemory;
use std::alloc::Global;
use std::marker::Model;

/// A sink in memory, whose short writes and failures are planned.
///
/// Contracts see the bytes that it holds, its plan, the number of calls that were made and the fault count.
#[derive(Drop)]
pub struct MemSink {
    bytes: Vec<u8>,
    room: usize,
    most: usize,
    fails: Vec<u32>,
    calls: u64,
    faults: u64,
}

impl Model for MemSink {
    ghost use Rattle.std.specs.Prelude.{◌≤◌, length, vec_capacity};
    ghost use Rattle.alw_io.specs.Scripted.{SinkState};

    ghost Value = { SinkState };

    ghost view = { λ s. record {
      held = s.bytes.items;
      room = s.room;
      most = s.most;
      fails = s.fails.items;
      calls = s.calls;
      faults = s.faults;
    } };

    ghost invariant = { λ s.
        (length s.bytes.items ≤ s.room) × (s.room ≤ vec_capacity s.bytes) × (1 ≤ s.most) };
}

impl MemSink {
    /// An empty sink for up to `room` bytes, which takes all its memory at once. A write moves the least
    /// of `most`, the length that is offered and the room that is left; exactly the calls numbered in
    /// `fails`, from 1, fail, and each write of a nonempty piece to a full sink.
    pub fn new(alloc: Global, room: usize, most: usize, fails: &[u32]) -> Result<MemSink, NoMemory>
        requires { 1 ≤ most }
        ensures { IfOk result (λ s. s ≡ starting_sink room most fails.now) }
    {
        Ok(MemSink {
            bytes: Vec::with_capacity(alloc, room)?,
            room,
            most,
            fails: fails.to_vec(alloc)?,
            calls: 0,
            faults: 0,
        })
    }

    /// The bytes that it holds.
    pub fn bytes(&self) -> &[u8]
        ensures { result.now ≡ self.now.held }
    {
        &self.bytes
    }
}

impl Sink for MemSink {
    ghost held = { λ s. Some s.held };

    ghost faults = { λ s. s.faults };

    fn write(&mut self, piece: &[u8]) -> Result<usize, Failed>
        ensures bound { WritesAtMost result piece.now }
        ensures some { IfOk result (λ n. n ≡ 0 → piece.now ≡ []) }
        ensures bytes { WriteAppends (Some self.old.held) (Some self.new.held) result piece.now }
        ensures cause { HasCause self.old.faults self.new.faults result }
        ensures range { self.new.faults ≤ 2 ^ 64 - 1 }

        ensures told { IsErr result
            ↔ (Contains self.old.fails (raised self.old.calls) ⊎ IsFullFor self.old piece.now) }
        ensures moved { IfOk result (λ n.
            n ≡ least self.old.most (length piece.now) (self.old.room - length self.old.held)) }
        ensures plan { (self.new.room ≡ self.old.room) × (self.new.most ≡ self.old.most)
            × (self.new.fails ≡ self.old.fails) }
        ensures calls { self.new.calls ≡ raised self.old.calls }
        ensures faults { self.new.faults
            ≡ (if is_err result then raised self.old.faults else self.old.faults) }
    {
        self.calls = self.calls.saturating_add(1);
        let left = self.room - self.bytes.len();
        if is_planned(&self.fails, self.calls) || (left == 0 && !piece.is_empty()) {
            self.faults = self.faults.saturating_add(1);
            return Err(Failed);
        }
        let count = self.most.min(piece.len()).min(left);
        let (front, _) = piece.split_at(count);
        match self.bytes.extend_from_slice(front) {
            Ok(()) => Ok(count),
            Err(_) => unreachable!(),
        }
    }
}
