ghost use Rattle.std.specs.Prelude.{◌≡◌, ◌≢◌, ◌≤◌, ◌+◌, ◌-◌, ◌*◌, ℕ, None, List, length};
ghost use Rattle.alw_num.specs.Draws.{drawn_times};
ghost use Rattle.alw_msg.specs.declared.events.Entry.{Entry};
ghost use Rattle.alw_image.specs.declared.parts.Parts.{Parts};
ghost use Rattle.alw_image.specs.Images.{IsImage, node_count};
ghost use Rattle.alw_image.specs.Parameters.{Parameters, AreParameters};
ghost use Rattle.alw_model.specs.Headline.{IsScheduled};
ghost use Rattle.alw_mesh.specs.Histories.{History};
ghost use Rattle.alw_sched.specs.Schedules.{end_in, MachineIsSeeded, IsSeededRun};

/// Two runs that one seed makes from one place, each up to an end, are one: so a report is a function
/// of image, parameters and seed.
#[tactic(auto, using(crate::proofs::Seeded::one_seeded))]
pub fn one_run_a_seed()
    ensures { (before : History) → (seed : ℕ) → (one : History) → (other : History) → MachineIsSeeded before seed one → MachineIsSeeded before seed other →
        end_in one ≢ None → end_in other ≢ None → one ≡ other }
{}

/// The run of a seed is made event by event: no end holds before its last entry, and no entry is an
/// eviction where none is to be tried.
#[tactic(auto, using(crate::proofs::Seeded::seeded_scheduled))]
pub fn seeded_runs_are_scheduled()
    ensures { (image : Parts) → (parameters : Parameters) → (seed : ℕ) → (journal : List Entry) → IsSeededRun image parameters seed journal → IsScheduled image parameters journal }
{}

/// The run of a seed has at most N * L + 2 * N * K entries, evictions included (N nodes, limit L, K lines a node): it evicts
/// only at a node with a context that hasn't halted, so that once all have halted no eviction comes.
pub fn seeded_runs_are_bounded()
    ensures { (image : Parts) → IsImage image → (parameters : Parameters) → AreParameters parameters → (seed : ℕ) → (journal : List Entry) →
        IsSeededRun image parameters seed journal → length journal ≤ node_count image * parameters.limit + 2 * (node_count image * image.per_node) }
{}

/// A run that was refused memory goes on: with the state that its draws left as the seed, of which each
/// event took one, it comes to what the seed makes of the first place undisturbed.
#[tactic(auto, using(crate::proofs::GoingOn::goes_on))]
pub fn refused_runs_go_on()
    ensures { (before : History) → (seed : ℕ) → (refused : History) → (after : History) → MachineIsSeeded before seed refused →
        MachineIsSeeded refused (drawn_times (length refused.journal - length before.journal) seed) after → MachineIsSeeded before seed after }
{}
