ghost use Rattle.std.specs.Prelude.{◌≡◌, ℕ, ◌+◌, ◌*◌, ◌<◌, ◌≤◌, false, Some, None, length, IsTrue};
ghost use Rattle.std.specs.List.{AllByRecursion};
ghost use Rattle.alw_num.specs.declared.addresses.NodeNo.{NodeNo};
ghost use Rattle.alw_num.specs.Maps.{value_at};
ghost use Rattle.alw_num.specs.Weights.{weigh};
ghost use Rattle.alw_msg.specs.declared.events.Entry.{Entry};
ghost use Rattle.alw_msg.specs.declared.events.Event.TheVariants.{Instr};
ghost use Rattle.alw_image.specs.declared.parts.Parts.{Parts};
ghost use Rattle.alw_image.specs.Images.{node_count, line_count, IsImage};
ghost use Rattle.alw_image.specs.Parameters.{Parameters, AreParameters};
ghost use Rattle.alw_model.specs.Contexts.{slot_at};
ghost use Rattle.alw_model.specs.NodeStates.{NodeState};
ghost use Rattle.alw_model.specs.Machine.{machine_start, node_at, step, has_halted, is_settled, is_enabled, end_of, Limit, IsNext};
ghost use Rattle.alw_model.specs.Runs.{moments, turns_of};
ghost use Rattle.alw_model.specs.Counts.{counts_of, count_holds};
ghost use Rattle.alw_msg.specs.Events.{is_evict};
ghost use Rattle.law_machine.specs.Endings.{has_ended, may_go_on, EvictsInTime};
ghost use Rattle.law_machine.specs.Holds.{UsesHold};
ghost use Rattle.law_machine.specs.Machines.{OnEveryMachine};

/// No machine is stuck. While some context has neither halted nor trapped, a main event is enabled,
/// the limit aside; and so it is while every context has halted and a message or a packet is left.
/// So a run that ends by the limit has a main event enabled, which is beyond it; and each image can
/// start.
pub fn never_stuck()
    ensures live { OnEveryMachine (λ parts parameters journal machine. (n slot : ℕ) → n < node_count parts →
        has_ended (slot_at (node_at machine n).slots slot).status ≡ false → IsTrue (may_go_on parts parameters machine)) }
    ensures unsettled { OnEveryMachine (λ parts parameters journal machine. IsTrue (has_halted machine) → is_settled machine ≡ false → IsTrue (may_go_on parts parameters machine)) }
    ensures limit { OnEveryMachine (λ parts parameters journal machine. end_of parts parameters machine ≡ Some Limit → IsTrue (may_go_on parts parameters machine)) }
    ensures start { (parts : Parts) → IsImage parts → (parameters : Parameters) → AreParameters parameters → IsTrue (may_go_on parts parameters (machine_start parts)) }
{}

/// A context that has halted or is trapped stays so, with its trap; and once every context has
/// halted, every context has.
pub fn ended_contexts_stay()
    ensures status { OnEveryMachine (λ parts parameters journal machine. (entry : Entry) → IsNext parts parameters machine entry → (n slot : ℕ) → IsTrue (has_ended (slot_at (node_at machine n).slots slot).status) →
        (slot_at (node_at (step parts parameters machine entry.event) n).slots slot).status ≡ (slot_at (node_at machine n).slots slot).status) }
    ensures halted { OnEveryMachine (λ parts parameters journal machine. (entry : Entry) → IsNext parts parameters machine entry → IsTrue (has_halted machine) → IsTrue (has_halted (step parts parameters machine entry.event))) }
{}

/// Once every context has halted the machine comes to rest: no instruction is enabled, no
/// transaction is open, and there is at most one message or packet for each line.
pub fn halted_machines_rest()
    ensures instr { OnEveryMachine (λ parts parameters journal machine. IsTrue (has_halted machine) → (at : NodeNo) → is_enabled parts parameters machine (Instr at) ≡ false) }
    ensures open { OnEveryMachine (λ parts parameters journal machine. IsTrue (has_halted machine) → (n line : ℕ) → n < node_count parts → value_at (node_at machine n).transactions line ≡ None) }
    ensures few { OnEveryMachine (λ parts parameters journal machine. IsTrue (has_halted machine) →
        weigh length machine.links + weigh (λ (node : NodeState). length node.packets) machine.nodes ≤ line_count parts) }
{}

/// Replies are used: the RDATA and WDATA delivered are the turns that ended a hold and the holds
/// that stand at the end. Each such turn needed the held line, and no slot with a hold misses. Once
/// every context has halted, each reply was used.
pub fn replies_are_used()
    ensures count { OnEveryMachine (λ parts parameters journal machine.
        (counts_of parts (moments parts parameters journal)).replies ≡ (counts_of parts (moments parts parameters journal)).used + count_holds machine) }
    ensures accessed { OnEveryMachine (λ parts parameters journal machine. AllByRecursion (UsesHold parts) (moments parts parameters journal)) }
    ensures halted { OnEveryMachine (λ parts parameters journal machine. IsTrue (has_halted machine) →
        (counts_of parts (moments parts parameters journal)).replies ≡ (counts_of parts (moments parts parameters journal)).used) }
{}

/// Runs are bounded. With N nodes, K home lines a node and limit L, a legal journal that makes no
/// eviction once every context has halted has at most N * L + 2 * N * K entries: before the last
/// halt each entry raises its node's clock, which stays within L, and after it only REPMs are left.
/// With evictions there are at most three more for each set of each node. At most N * L entries are
/// turns, since once every context has halted there is none.
pub fn runs_are_bounded()
    ensures in_time { OnEveryMachine (λ parts parameters journal machine. EvictsInTime parts parameters journal →
        length journal ≤ node_count parts * parameters.limit + 2 * (node_count parts * parts.per_node)) }
    ensures no_evictions { OnEveryMachine (λ parts parameters journal machine. AllByRecursion (λ (entry : Entry). is_evict entry.event ≡ false) journal →
        length journal ≤ node_count parts * parameters.limit + 2 * (node_count parts * parts.per_node)) }
    ensures any { OnEveryMachine (λ parts parameters journal machine.
        length journal ≤ node_count parts * parameters.limit + (3 * (node_count parts * parameters.sets) + 2 * (node_count parts * parts.per_node))) }
    ensures turns { OnEveryMachine (λ parts parameters journal machine. length (turns_of parts parameters journal) ≤ node_count parts * parameters.limit) }
{}
