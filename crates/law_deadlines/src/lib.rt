//! Each event of a legal journal has a deadline: for each stamp a number of cycles that the costs and the
//! mesh give.
#![tactic(auto)]

ghost use Rattle.std.specs.Prelude.{◌≤◌, ◌<◌, ◌*◌, ◌^◌, ◌∷◌, [], ◌++◌, List};
ghost use Rattle.alw_msg.specs.declared.events.Entry.{Entry};
ghost use Rattle.alw_image.specs.declared.parts.Parts.{Parts};
ghost use Rattle.alw_image.specs.Images.{IsImage};
ghost use Rattle.alw_image.specs.Parameters.{Parameters};
ghost use Rattle.alw_model.specs.Machine.{IsLegal};
ghost use Rattle.alw_times.specs.declared.costs.Costs.{Costs};
ghost use Rattle.alw_times.specs.Laws.{finished};
ghost use Rattle.law_deadlines.specs.Deadlines.{cycles_a_stamp};

use alw_times::Costs;

/// Each event of a legal journal has a deadline: an event with stamp t has finished by t times the cycles
/// that a stamp is worth, whatever the costs, and whatever schedule made the journal.
pub fn finishes_have_deadlines()
    ensures { (parts : Parts) → IsImage parts → (parameters : Parameters) → 1 ≤ parameters.pointers → (costs : Costs) → (journal : List Entry) → (entry : Entry) →
        IsLegal parts parameters (journal ++ entry ∷ []) → finished parts parameters costs journal entry ≤ cycles_a_stamp parts costs * entry.stamp }
{}

/// So a finish fits 64 bits, where costs are what a program has of them, and the stamp is of 32 bits.
pub fn finishes_fit(costs: Costs)
    ensures { (parts : Parts) → IsImage parts → (parameters : Parameters) → 1 ≤ parameters.pointers → (journal : List Entry) → (entry : Entry) →
        IsLegal parts parameters (journal ++ entry ∷ []) → entry.stamp < 2 ^ 32 → finished parts parameters costs journal entry < 2 ^ 58 }
{}
