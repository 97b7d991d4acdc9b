ghost use Rattle.std.specs.Prelude.{◌≡◌, ℕ, ◌-◌, ◌^◌, ◌<◌, ◌≤◌, ◌||◌, ◌==◌, nat_le, Some, is_some, IsTrue};
ghost use Rattle.alw_num.specs.declared.states.Mode.{Mode};
ghost use Rattle.alw_num.specs.Maps.{value_at};
ghost use Rattle.alw_msg.specs.declared.contexts.Status.TheVariants.{Ready};
ghost use Rattle.alw_msg.specs.declared.messages.Msg.{Msg};
ghost use Rattle.alw_image.specs.Images.{node_count};
ghost use Rattle.alw_model.specs.Caches.{Transaction, copy_at};
ghost use Rattle.alw_msg.specs.Statuses.{waits_on};
ghost use Rattle.alw_model.specs.Contexts.{slot_at};
ghost use Rattle.alw_msg.specs.Lists.{front};
ghost use Rattle.alw_model.specs.Machine.{node_at, link_at};
ghost use Rattle.alw_model.specs.Messages.{is_fit};
ghost use Rattle.alw_model.specs.MachineInvariant.{MachineInvariant};
ghost use Rattle.law_machine.specs.Machines.{OnEveryMachine};

/// The machine invariant holds after every legal journal, of every image under all parameters: the
/// line invariant of each line, and what there is to say of slots, transactions, links, packets,
/// caches, clocks, sizes, and of what is left to do once every context has halted.
pub fn machine_is_sound()
    ensures { OnEveryMachine (λ parts parameters journal machine. MachineInvariant parts parameters machine) }
{}

/// A slot that holds a line is Ready, and its node has a copy of the line.
pub fn holders_have_copies()
    ensures ready { OnEveryMachine (λ parts parameters journal machine. (n : ℕ) → n < node_count parts → (slot line : ℕ) →
        (slot_at (node_at machine n).slots slot).hold ≡ Some line → (slot_at (node_at machine n).slots slot).status ≡ Ready) }
    ensures copy { OnEveryMachine (λ parts parameters journal machine. (n : ℕ) → n < node_count parts → (slot line : ℕ) →
        (slot_at (node_at machine n).slots slot).hold ≡ Some line → IsTrue (is_some (copy_at parameters.sets (node_at machine n).cache line))) }
{}

/// A context waits on a line only while its node has a transaction on it; and no slot of a node has
/// opened two transactions.
pub fn waiting_has_a_transaction()
    ensures open { OnEveryMachine (λ parts parameters journal machine. (n : ℕ) → n < node_count parts → (slot line : ℕ) →
        IsTrue (waits_on line (slot_at (node_at machine n).slots slot).status) → IsTrue (is_some (value_at (node_at machine n).transactions line))) }
    ensures once { OnEveryMachine (λ parts parameters journal machine. (n : ℕ) → n < node_count parts → (one other : ℕ) → (first second : Transaction) →
        value_at (node_at machine n).transactions one ≡ Some first → value_at (node_at machine n).transactions other ≡ Some second → first.opener ≡ second.opener → one ≡ other) }
{}

/// No clock is ever the greatest, and the head of every link is fit: so an event is never kept back
/// for either.
pub fn clocks_are_small()
    ensures clocks { OnEveryMachine (λ parts parameters journal machine. (n : ℕ) → n < node_count parts → (node_at machine n).clock < 2 ^ 32 - 1) }
    ensures heads { OnEveryMachine (λ parts parameters journal machine. (from to : ℕ) → from < node_count parts → to < node_count parts → (msg : Msg) →
        front (link_at parts machine from to) ≡ Some msg → IsTrue (is_fit parts from to msg)) }
{}
