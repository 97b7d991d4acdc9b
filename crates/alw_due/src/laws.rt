ghost use Rattle.std.specs.Prelude.{◌≡◌, ◌≢◌, ◌≤◌, ℕ, None, Some, List, slice_get};
ghost use Rattle.alw_msg.specs.declared.events.Event.{Event};
ghost use Rattle.alw_msg.specs.declared.events.Entry.{Entry};
ghost use Rattle.alw_image.specs.declared.parts.Parts.{Parts};
ghost use Rattle.alw_image.specs.Parameters.{Parameters};
ghost use Rattle.alw_model.specs.Headline.{IsScheduled};
ghost use Rattle.alw_mesh.specs.Histories.{History, IsRun};
ghost use Rattle.alw_times.specs.declared.costs.Costs.{Costs};
ghost use Rattle.alw_due.specs.Due.{end_in, times_in, start_for, due_events, EventIsTimed, EventsAreTimed, StartsAscend, MachineIsTimed, IsTimedRun};

/// A timed run is made event by event: no end holds before its last entry, and no entry is an eviction.
pub fn timed_runs_are_scheduled()
    ensures { (image : Parts) → (parameters : Parameters) → (costs : Costs) → (journal : List Entry) → IsTimedRun image parameters costs journal → IsScheduled image parameters journal }
{}

/// Two timed runs from one place, each up to an end, are one: so a timed run is a function of image,
/// parameters and costs, the seed of the waits after a BUSY included.
pub fn one_run_by_time()
    ensures { (before : History) → (costs : Costs) → (one : History) → (other : History) → MachineIsTimed before costs one → MachineIsTimed before costs other →
        end_in one ≢ None → end_in other ≢ None → one ≡ other }
{}

/// No event that is due and may be next would start earlier than the one that comes.
pub fn nothing_due_starts_earlier()
    ensures { (h : History) → (costs : Costs) → (event : Event) → EventIsTimed h costs event → (k : ℕ) → (other : Event) → slice_get (due_events h costs (times_in h costs)) k ≡ Some other →
        start_for h costs (times_in h costs) event ≤ start_for h costs (times_in h costs) other }
{}

/// Along a timed run no event starts before the one that came before it. Where every context has halted with that
/// one, events beyond the limit may come that could have started earlier: of those it says nothing.
pub fn starts_never_decrease()
    ensures { (h : History) → (costs : Costs) → (events : List Event) → (after : History) → IsRun h → EventsAreTimed h costs events after → StartsAscend h costs events }
{}
