ghost use Rattle.std.specs.Prelude.{◌≡◌, ◌≢◌, ℕ, false, Some, IsTrue};
ghost use Rattle.alw_num.specs.declared.addresses.Line.{Line};
ghost use Rattle.alw_num.specs.declared.states.Mode.{Mode};
ghost use Rattle.alw_model.specs.LineInvariant.{reads, writes};
ghost use Rattle.law_line.specs.Protocol.{AfterEveryRun};

/// Two Read-Write copies never stand at once, nor a Read-Write copy beside a Read-Only copy of
/// another node.
#[tactic(auto, using(crate::proofs::Always::always_one_writer, crate::proofs::Always::always_no_reader))]
pub fn writers_are_alone()
    ensures one { AfterEveryRun (λ n value s. (i j : ℕ) → IsTrue (writes (s.node i)) → IsTrue (writes (s.node j)) → i ≡ j) }
    ensures no_reader { AfterEveryRun (λ n value s. (i j : ℕ) → IsTrue (writes (s.node i)) → i ≢ j → reads (s.node j) ≡ false) }
{}

/// Every copy, Read-Only or Read-Write, holds the value that was stored last.
#[tactic(auto, using(crate::proofs::Always::always_copy_value))]
pub fn copies_hold_the_value()
    ensures { AfterEveryRun (λ n value s. (i : ℕ) → (mode : Mode) → (body : Line) → (s.node i).copy ≡ Some (mode, body) → body ≡ value) }
{}
