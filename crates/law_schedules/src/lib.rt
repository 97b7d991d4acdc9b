//! Every legal journal comes to what turns on one memory come to.
#![tactic(auto)]

ghost use Rattle.std.specs.Prelude.{◌≡◌, ◌≤◌, ℕ, true, List};
ghost use Rattle.alw_image.specs.declared.parts.Parts.{Parts};
ghost use Rattle.alw_msg.specs.Statuses.{has_trapped};
ghost use Rattle.alw_model.specs.Flat.{context_at};
ghost use Rattle.alw_model.specs.Runs.{prints_of, flat_view};
ghost use Rattle.law_machine.specs.Values.{AfterEveryJournal};
ghost use Rattle.alw_places.specs.Outcomes.{Ending, HaltsWith, HasEvery, HasTold, flat_halted};
ghost use Rattle.law_schedules.specs.Schedules.{ListsAll};

/// After every legal journal, under whatever parameters: where all contexts have halted, the memory
/// and the words that each context has printed are what turns on one memory come to; where a context
/// has trapped, its trap is.
pub fn every_schedule()
    ensures halted { AfterEveryJournal (λ parts parameters journal machine. flat_halted (flat_view parts parameters machine) ≡ true →
        HaltsWith parts (flat_view parts parameters machine).memory (prints_of parts parameters journal)) }
    ensures trapped { AfterEveryJournal (λ parts parameters journal machine. (context : ℕ) → has_trapped (context_at (flat_view parts parameters machine) context).status ≡ true →
        HasTold parts (flat_view parts parameters machine) context) }
{}

/// A list that has everything that turns on one memory come to has what every legal journal comes to.
pub fn complete_lists_have_every_schedule()
    ensures { (parts : Parts) → (endings : List Ending) → HasEvery parts endings → ListsAll parts endings }
{}
