ghost use Rattle.std.specs.Prelude.{◌≡◌, ◌≤◌, [], ◌∷◌, ◌++◌, List};
ghost use Rattle.alw_msg.specs.declared.events.Entry.{Entry};
ghost use Rattle.alw_image.specs.declared.parts.Parts.{Parts};
ghost use Rattle.alw_image.specs.Parameters.{Parameters};
ghost use Rattle.alw_model.specs.Machine.{state};
ghost use Rattle.alw_model.specs.Runs.{moment_of};
ghost use Rattle.alw_times.specs.declared.costs.Costs.{Costs};
ghost use Rattle.alw_times.specs.Times.{times_start, timed, times_of};
ghost use Rattle.alw_times.specs.Laws.{EveryTwo, started, begun, finished, is_of_processor};

/// The times of a journal with an entry more are those of the journal, and of what the entry does.
pub fn times_grow()
    ensures none { (parts : Parts) → (parameters : Parameters) → (costs : Costs) → times_of parts parameters costs [] ≡ times_start parts costs }
    ensures more { (parts : Parts) → (parameters : Parameters) → (costs : Costs) → (journal : List Entry) → (entry : Entry) →
        times_of parts parameters costs (journal ++ entry ∷ []) ≡
        timed parts costs (times_of parts parameters costs journal) (moment_of parts parameters (state parts parameters journal) entry) }
{}

/// Of two events of a node, in any journal, the later one starts no earlier.
pub fn starts_rise()
    ensures { EveryTwo (λ parts parameters costs front first middle second.
        started parts parameters costs front first ≤ started parts parameters costs (front ++ first ∷ middle) second) }
{}

/// A node's processor does one thing at a time, and so does its controller: of two events of one of them,
/// in any journal, the later one begins when the other has finished, or later. What the handler does it
/// has begun by its cost before its start.
pub fn one_thing_at_a_time()
    ensures { EveryTwo (λ parts parameters costs front first middle second. is_of_processor second.event ≡ is_of_processor first.event →
        finished parts parameters costs front first ≤ begun parts parameters costs (front ++ first ∷ middle) second) }
{}
