ghost use Rattle.std.specs.Prelude.{◌≡◌, ◌≤◌, ◌+◌, ◌*◌, ◌∷◌, [], ◌++◌, ℕ, List};
ghost use Rattle.alw_msg.specs.declared.events.Entry.{Entry};
ghost use Rattle.alw_image.specs.declared.parts.Parts.{Parts};
ghost use Rattle.alw_image.specs.Parameters.{Parameters};
ghost use Rattle.alw_model.specs.Machine.{IsLegal};
ghost use Rattle.alw_times.specs.declared.costs.Costs.{Costs};
ghost use Rattle.alw_times.specs.Laws.{finished};
ghost use Rattle.law_times.specs.Prices.{ArePriced, AreUnit};

/// Where no event of a legal journal works for more than `work`, holds its port for more than `lengths` or
/// sends further than `way`, an event finishes by their sum for each cycle of its stamp.
pub fn finishes_are_priced()
    ensures { (parts : Parts) → (parameters : Parameters) → (costs : Costs) → 1 ≤ parts.contexts → 1 ≤ parameters.pointers → (work lengths way : ℕ) → (journal : List Entry) → (entry : Entry) →
        IsLegal parts parameters (journal ++ entry ∷ []) → ArePriced parts parameters costs work lengths way (journal ++ entry ∷ []) →
        finished parts parameters costs journal entry ≤ (work + lengths + way) * entry.stamp }
{}

/// By unit costs no event of a legal journal finishes later than its stamp, which is Lamport's clock (1978).
pub fn stamps_bound_unit_times()
    ensures { (parts : Parts) → (parameters : Parameters) → (costs : Costs) → 1 ≤ parts.contexts → 1 ≤ parameters.pointers → AreUnit costs → (journal : List Entry) → (entry : Entry) →
        IsLegal parts parameters (journal ++ entry ∷ []) → finished parts parameters costs journal entry ≤ entry.stamp }
{}
