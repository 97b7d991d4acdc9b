ghost use Rattle.std.specs.Prelude.{◌≡◌, ℕ, IsTrue};
ghost use Rattle.alw_num.specs.declared.addresses.Line.{Line};
ghost use Rattle.alw_model.specs.LimitLess.{Directory};
ghost use Rattle.alw_model.specs.Lines.{LineState, line_value};
ghost use Rattle.alw_model.specs.LineInvariant.{LineInvariant, software_fits};
ghost use Rattle.law_line.specs.Protocol.{LineEvent, IsLegal, step, value_after, AfterEveryRun};
ghost use Rattle.law_line.specs.Sound.{Sound};

/// After every legal run a line is sound. So it meets each clause of the line invariant, but that
/// on the software set, which isn't the protocol's; and its current value is the one stored last.
#[tactic(auto, using(crate::proofs::Always::always_value))]
pub fn line_invariant()
    ensures sound { AfterEveryRun Sound }
    ensures clauses { AfterEveryRun (λ n value s. (entry : Directory) → (pending : ℕ) → IsTrue (software_fits entry pending) → LineInvariant n s entry pending) }
    ensures value { AfterEveryRun (λ n value s. line_value n s ≡ value) }
{}

/// Each legal event keeps a line sound, with the value that it stores or else with the same.
pub fn each_event_keeps_it()
    ensures { (n : ℕ) → (value : Line) → (s : LineState) → (event : LineEvent) → Sound n value s → IsLegal n s event → Sound n (value_after value event) (step s event) }
{}
