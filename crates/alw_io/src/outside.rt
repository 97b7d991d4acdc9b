ghost use Rattle.std.specs.Prelude.{◌≡◌, ◌-◌, ◌^◌, ◌≤◌, ℕ, List, [], IfOk};
ghost use Rattle.std.specs.declared.option.Option.{Option};
ghost use Rattle.std.specs.Io.{ReadsAtMost, WritesAtMost};
ghost use Rattle.std.specs.Io.KnownBytes.{ReadConsumes, WriteAppends};
ghost use Rattle.alw_io.specs.Outside.{HasCause};

/// The one error of a read or a write. The fault count says that there was a cause.
#[derive(Clone, Copy, Debug, PartialEq, Eq)]
pub struct Failed;

/// A place that bytes come from.
///
/// Contracts see its rest (`left`), where the source tells it, and a count of faults that never falls
/// and whose last value is 18446744073709551615.
pub trait Source {
    ghost left: { Self → Option (List ℕ) };

    ghost faults: { Self → ℕ };

    /// Takes the next bytes of the rest into the front of `buf` and answers how many. 0 for a nonempty
    /// buffer comes exactly where the rest is empty. On `Failed`, which comes only where the fault count
    /// rose in this call, the rest is unchanged and what stands in `buf` is left open.
    fn read(&mut self, buf: &mut [u8]) -> Result<usize, Failed>
        ensures bound { ReadsAtMost result buf.new }
        ensures bytes { ReadConsumes (left self.old) (left self.new) result buf.new }
        ensures cause { HasCause (faults self.old) (faults self.new) result }
        ensures range { faults self.new ≤ 2 ^ 64 - 1 };
}

/// A place that bytes go to.
///
/// Contracts see its contents (`held`), where the sink tells them, and a count of faults that never falls
/// and whose last value is 18446744073709551615.
pub trait Sink {
    ghost held: { Self → Option (List ℕ) };

    ghost faults: { Self → ℕ };

    /// Appends the front of `piece` to the contents and answers how many bytes it took: 0 only for an
    /// empty piece. On `Failed`, which comes only where the fault count rose in this call, the contents
    /// are unchanged.
    fn write(&mut self, piece: &[u8]) -> Result<usize, Failed>
        ensures bound { WritesAtMost result piece.now }
        ensures some { IfOk result (λ n. n ≡ 0 → piece.now ≡ []) }
        ensures bytes { WriteAppends (held self.old) (held self.new) result piece.now }
        ensures cause { HasCause (faults self.old) (faults self.new) result }
        ensures range { faults self.new ≤ 2 ^ 64 - 1 };
}
