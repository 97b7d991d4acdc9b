ghost use Rattle.std.specs.Prelude.{◌≡◌, ◌≤◌};
ghost use Rattle.alw_times.specs.Times.{times_of};
ghost use Rattle.alw_waits.specs.Waits.{waits_of};
ghost use Rattle.law_times.specs.Orders.{EveryOrder};

/// Times are of the order at each node alone: two legal journals of the same entries have the same times,
/// whatever the costs.
pub fn times_are_of_each_node()
    ensures { EveryOrder (λ parts parameters costs one other. times_of parts parameters costs one ≡ times_of parts parameters costs other) }
{}

/// So is what is told of accesses, of deliveries and of what each node spent, and of misses where entries
/// have a pointer.
pub fn waits_are_of_each_node()
    ensures accesses { EveryOrder (λ parts parameters costs one other.
        (waits_of parts parameters costs one).accesses ≡ (waits_of parts parameters costs other).accesses) }
    ensures queued { EveryOrder (λ parts parameters costs one other.
        (waits_of parts parameters costs one).queued ≡ (waits_of parts parameters costs other).queued) }
    ensures spent { EveryOrder (λ parts parameters costs one other.
        (waits_of parts parameters costs one).spent ≡ (waits_of parts parameters costs other).spent) }
    ensures ends { EveryOrder (λ parts parameters costs one other. 1 ≤ parameters.pointers →
        (waits_of parts parameters costs one).ends ≡ (waits_of parts parameters costs other).ends) }
{}
