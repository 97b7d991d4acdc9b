ghost use Rattle.std.specs.Prelude.{◌≡◌, ◌-◌, ◌^◌, ◌≤◌, ◌↔◌, Some, length, Contains, IsErr, IfOk, is_err, if◌then◌else◌};
ghost use Rattle.std.specs.Io.{ReadsAtMost};
ghost use Rattle.std.specs.Io.KnownBytes.{ReadConsumes};
ghost use Rattle.alw_io.specs.Outside.{raised, HasCause};
ghost use Rattle.alw_io.specs.Scripted.{starting_source, least};

use crate::outside::{Failed, Source};
use crate::plan::is_planned;
use alw_num::NoMemory;
use std::alloc::Global;
use std::marker::Model;

/// A source in memory, whose short reads and failures are planned.
///
/// Contracts see its rest of bytes, its plan, the number of calls that were made and the fault count.
#[derive(Drop)]
pub struct MemSource {
    bytes: Vec<u8>,
    taken: usize,
    most: usize,
    fails: Vec<u32>,
    calls: u64,
    faults: u64,
}

impl Model for MemSource {
    ghost use Rattle.std.specs.Prelude.{◌≤◌, drop, length};
    ghost use Rattle.alw_io.specs.Scripted.{SourceState};

    ghost Value = { SourceState };

    ghost view = { λ s. record {
      rest = drop s.taken s.bytes.items;
      most = s.most;
      fails = s.fails.items;
      calls = s.calls;
      faults = s.faults;
    } };

    ghost invariant = { λ s. (s.taken ≤ length s.bytes.items) × (1 ≤ s.most) };
}

impl MemSource {
    /// A source of these bytes. A read moves the least of `most`, the length that is offered and what is
    /// left; exactly the calls numbered in `fails`, from 1, fail.
    pub fn new(
        alloc: Global,
        bytes: &[u8],
        most: usize,
        fails: &[u32],
    ) -> Result<MemSource, NoMemory>
        requires { 1 ≤ most }
        ensures { IfOk result (λ s. s ≡ starting_source bytes.now most fails.now) }
    {
        Ok(MemSource {
            bytes: bytes.to_vec(alloc)?,
            taken: 0,
            most,
            fails: fails.to_vec(alloc)?,
            calls: 0,
            faults: 0,
        })
    }
}

impl Source for MemSource {
    ghost left = { λ s. Some s.rest };

    ghost faults = { λ s. s.faults };

    fn read(&mut self, buf: &mut [u8]) -> Result<usize, Failed>
        ensures bound { ReadsAtMost result buf.new }
        ensures bytes { ReadConsumes (Some self.old.rest) (Some self.new.rest) result buf.new }
        ensures cause { HasCause self.old.faults self.new.faults result }
        ensures range { self.new.faults ≤ 2 ^ 64 - 1 }

        ensures told { IsErr result ↔ Contains self.old.fails (raised self.old.calls) }
        ensures moved { IfOk result (λ n.
            n ≡ least self.old.most (length buf.new) (length self.old.rest)) }
        ensures plan { (self.new.most ≡ self.old.most) × (self.new.fails ≡ self.old.fails) }
        ensures calls { self.new.calls ≡ raised self.old.calls }
        ensures faults { self.new.faults
            ≡ (if is_err result then raised self.old.faults else self.old.faults) }
    {
        self.calls = self.calls.saturating_add(1);
        if is_planned(&self.fails, self.calls) {
            self.faults = self.faults.saturating_add(1);
            return Err(Failed);
        }
        let (_, rest) = self.bytes.split_at(self.taken);
        let count = self.most.min(buf.len()).min(rest.len());
        let (front, _) = rest.split_at(count);
        let (room, _) = buf.split_at_mut(count);
        room.copy_from_slice(front);
        self.taken += count;
        Ok(count)
    }
}
