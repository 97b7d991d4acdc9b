ghost use Rattle.std.specs.Prelude.{◌≡◌, [], ◌∷◌, ◌++◌, List};
ghost use Rattle.alw_msg.specs.declared.events.Entry.{Entry};
ghost use Rattle.alw_image.specs.declared.parts.Parts.{Parts};
ghost use Rattle.alw_image.specs.Parameters.{Parameters};
ghost use Rattle.alw_model.specs.Machine.{state};
ghost use Rattle.alw_model.specs.Runs.{moment_of};
ghost use Rattle.alw_times.specs.declared.costs.Costs.{Costs};
ghost use Rattle.alw_times.specs.Times.{times_of};
ghost use Rattle.alw_waits.specs.Waits.{waits_start, waited, waits_of, span_in, spans_of};

/// What is told of a journal with an entry more is what is told of the journal, and of what the entry does.
pub fn waits_grow()
    ensures none { (parts : Parts) → (parameters : Parameters) → (costs : Costs) → waits_of parts parameters costs [] ≡ waits_start parts }
    ensures more { (parts : Parts) → (parameters : Parameters) → (costs : Costs) → (journal : List Entry) → (entry : Entry) →
        waits_of parts parameters costs (journal ++ entry ∷ []) ≡
        waited parts costs (times_of parts parameters costs journal) (waits_of parts parameters costs journal) (moment_of parts parameters (state parts parameters journal) entry) }
    ensures no_spans { (parts : Parts) → (parameters : Parameters) → (costs : Costs) → spans_of parts parameters costs [] ≡ [] }
    ensures spans { (parts : Parts) → (parameters : Parameters) → (costs : Costs) → (journal : List Entry) → (entry : Entry) →
        spans_of parts parameters costs (journal ++ entry ∷ []) ≡
        spans_of parts parameters costs journal ++ span_in parts costs (times_of parts parameters costs journal) (moment_of parts parameters (state parts parameters journal) entry) ∷ [] }
{}
