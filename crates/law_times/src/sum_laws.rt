ghost use Rattle.std.specs.Prelude.{◌≤◌, ℕ, List};
ghost use Rattle.alw_msg.specs.declared.events.Entry.{Entry};
ghost use Rattle.alw_image.specs.declared.parts.Parts.{Parts};
ghost use Rattle.alw_image.specs.Parameters.{Parameters};
ghost use Rattle.alw_times.specs.declared.costs.Costs.{Costs};
ghost use Rattle.alw_times.specs.Times.{times_of};
ghost use Rattle.alw_waits.specs.Waits.{spent_at, waits_of};
ghost use Rattle.law_times.specs.Sums.{processor_spent};

/// What a node's processor spent comes to no more than the cycles of the run, whatever the journal, and
/// so does what its controller spent. So the cycles that it waited are what is left of them.
pub fn parts_sum_up()
    ensures processor { (parts : Parts) → (parameters : Parameters) → (costs : Costs) → (journal : List Entry) → (node : ℕ) →
        processor_spent (spent_at (waits_of parts parameters costs journal) node) ≤ (times_of parts parameters costs journal).latest }
    ensures controller { (parts : Parts) → (parameters : Parameters) → (costs : Costs) → (journal : List Entry) → (node : ℕ) →
        (spent_at (waits_of parts parameters costs journal) node).controller ≤ (times_of parts parameters costs journal).latest }
{}
