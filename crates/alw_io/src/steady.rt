ghost use Rattle.std.specs.Prelude.{◌≡◌, ◌+◌, ◌-◌, ◌^◌, ◌≤◌, [], None, Some, Ok, IfOk, min, length};
ghost use Rattle.std.specs.Io.{ReadsAtMost, WritesAtMost};
ghost use Rattle.std.specs.Io.KnownBytes.{ReadConsumes, WriteAppends};
ghost use Rattle.alw_io.specs.Outside.{HasCause};

use crate::outside::{Failed, Sink, Source};
use std::marker::Model;

/// A source over lent bytes that never fails. Contracts see its rest of bytes.
#[derive(Drop)]
pub struct SteadySource<'a> {
    rest: &'a [u8],
}

impl<'a> Model for SteadySource<'a> {
    ghost use Rattle.std.specs.Prelude.{List, ℕ};

    ghost Value = { List ℕ };

    ghost view = { λ s. s.rest.now };
}

impl<'a> SteadySource<'a> {
    /// A source of these bytes.
    pub fn new(bytes: &'a [u8]) -> SteadySource<'a>
        ensures { result ≡ bytes.now }
    {
        SteadySource { rest: bytes }
    }
}

impl Source for SteadySource<'_> {
    ghost left = { λ s. Some s };

    ghost faults = { λ _. 0 };

    /// Moves the lesser of the length that is offered and what is left.
    fn read(&mut self, buf: &mut [u8]) -> Result<usize, Failed>
        ensures bound { ReadsAtMost result buf.new }
        ensures bytes { ReadConsumes (Some self.old) (Some self.new) result buf.new }
        ensures cause { HasCause 0 0 result }
        ensures range { 0 ≤ 2 ^ 64 - 1 }

        ensures moved { result ≡ Ok (min (length buf.new) (length self.old)) }
    {
        let count = buf.len().min(self.rest.len());
        let (front, rest) = self.rest.split_at(count);
        let (room, _) = buf.split_at_mut(count);
        room.copy_from_slice(front);
        self.rest = rest;
        Ok(count)
    }
}

/// A sink that takes all that it is offered, never fails and keeps only the number of bytes that it took.
/// Contracts see that number.
#[derive(Drop)]
pub struct SteadySink {
    taken: u64,
}

impl Model for SteadySink {
    ghost use Rattle.std.specs.Prelude.{ℕ};

    ghost Value = { ℕ };

    ghost view = { λ s. s.taken };
}

impl SteadySink {
    /// A sink that took no byte so far.
    pub fn new() -> SteadySink
        ensures { result ≡ 0 }
    {
        SteadySink { taken: 0 }
    }

    /// The number of bytes that it took, which stays at 18446744073709551615 once it is there.
    pub fn taken(&self) -> u64
        ensures { result ≡ self.now }
    {
        self.taken
    }
}

impl Sink for SteadySink {
    ghost held = { λ _. None };

    ghost faults = { λ _. 0 };

    fn write(&mut self, piece: &[u8]) -> Result<usize, Failed>
        ensures bound { WritesAtMost result piece.now }
        ensures some { IfOk result (λ n. n ≡ 0 → piece.now ≡ []) }
        ensures bytes { WriteAppends None None result piece.now }
        ensures cause { HasCause 0 0 result }
        ensures range { 0 ≤ 2 ^ 64 - 1 }

        ensures moved { result ≡ Ok (length piece.now) }
        ensures taken { self.new ≡ min (self.old + length piece.now) (2 ^ 64 - 1) }
    {
        self.taken = self.taken.saturating_add(piece.len() as u64);
        Ok(piece.len())
    }
}
