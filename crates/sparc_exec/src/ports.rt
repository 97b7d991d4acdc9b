ghost use Rattle.std.specs.Prelude.{◌≡◌, ℕ, List, Option, IsSome};
ghost use Rattle.alw_num.specs.declared.addresses.Line.{Line};
ghost use Rattle.alw_num.specs.declared.states.Mode.{Mode};
ghost use Rattle.sparc_exec.specs.Ports.{Copies, Access, Grab, Put, granted, with_copy, and_then};
ghost use Rattle.sparc_exec.specs.Runs.{Same};

use alw_num::{Line, LineNo, Mode};

/// The copies of lines that a processor can reach: its cache, or a memory.
///
/// A port tells the copy of each line, the number of lines of shared data, the number of places that it
/// has for copies, and the calls that were made on it. One that keeps no account of calls tells None.
pub trait Port {
    ghost copy: { Self → ℕ → Option (Mode × Line) };

    ghost lines: { Self → ℕ };

    ghost places: { Self → ℕ };

    ghost calls: { Self → Option (List Access) };

    /// The number of lines of shared data.
    fn lines(&self) -> u32
        ensures { result ≡ lines self.now };

    /// The value of a line's copy. None exactly where there is no copy that grants the mode: a
    /// Read-Write copy grants both modes, a Read-Only copy Read alone.
    fn grab(&mut self, line: LineNo, mode: Mode) -> Option<Line>
        ensures value { result ≡ granted mode (copy self.old line.0) }
        ensures copies { Same (copy self.old) (copy self.new) }
        ensures sizes { (lines self.new ≡ lines self.old) × (places self.new ≡ places self.old) }
        ensures calls { calls self.new ≡ and_then (calls self.old) (Grab line.0 mode) };

    /// Gives a line's copy, which is Read-Write, this value. All other copies stay.
    fn put(&mut self, line: LineNo, value: Line)
        requires { IsSome (granted Mode.Write (copy self.old line.0)) }
        ensures copies { Same (with_copy line.0 value (copy self.old)) (copy self.new) }
        ensures sizes { (lines self.new ≡ lines self.old) × (places self.new ≡ places self.old) }
        ensures calls { calls self.new ≡ and_then (calls self.old) (Put line.0 value) };
}
