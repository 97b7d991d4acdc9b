ghost use Rattle.std.specs.Prelude.{◌≡◌, ◌≢◌, ℕ, ◌<◌, IsTrue};
ghost use Rattle.alw_msg.specs.declared.events.Event.{Event};
ghost use Rattle.alw_image.specs.declared.parts.Parts.{Parts};
ghost use Rattle.alw_image.specs.Images.{node_count};
ghost use Rattle.alw_image.specs.Parameters.{Parameters};
ghost use Rattle.alw_msg.specs.Events.{node_of};
ghost use Rattle.alw_model.specs.Machine.{MachineState, node_at, link_at, is_enabled, stamp_at, stepped_by, step, state};
ghost use Rattle.law_order.specs.Orders.{EveryJournal, SeesAlike, NodesRise, link_after};

/// An event sees its own node and the message that it takes: in two machines that have these alike it
/// is enabled alike, has the same stamp and does the same at its node. It changes its own node, the
/// link that it takes from, and the links from its node, by what it sends.
#[tactic(auto, using(crate::proofs::Local::enabled_alike, crate::proofs::Local::stamp_alike, crate::proofs::Local::stepped_alike))]
pub fn events_are_local()
    ensures enabled { (parts : Parts) → (parameters : Parameters) → (one other : MachineState) → (event : Event) → SeesAlike parts event one other →
        is_enabled parts parameters one event ≡ is_enabled parts parameters other event }
    ensures stamp { (parts : Parts) → (one other : MachineState) → (event : Event) → SeesAlike parts event one other →
        stamp_at parts one event ≡ stamp_at parts other event }
    ensures step { (parts : Parts) → (parameters : Parameters) → (one other : MachineState) → (event : Event) → SeesAlike parts event one other →
        stepped_by parts parameters one event ≡ stepped_by parts parameters other event }
    ensures own { EveryJournal (λ parts parameters journal. (event : Event) → IsTrue (is_enabled parts parameters (state parts parameters journal) event) →
        node_at (step parts parameters (state parts parameters journal) event) (node_of event) ≡ (stepped_by parts parameters (state parts parameters journal) event).node) }
    ensures others { (parts : Parts) → (parameters : Parameters) → (machine : MachineState) → (event : Event) → (n : ℕ) → n ≢ node_of event →
        node_at (step parts parameters machine event) n ≡ node_at machine n }
    ensures links { EveryJournal (λ parts parameters journal. (event : Event) → IsTrue (is_enabled parts parameters (state parts parameters journal) event) → (from to : ℕ) → to < node_count parts →
        link_at parts (step parts parameters (state parts parameters journal) event) from to ≡ link_after parts parameters (state parts parameters journal) event from to) }
{}

/// In every legal journal the stamps of each node's entries rise strictly (Lamport 1978).
#[tactic(auto, using(crate::proofs::Reached::rise))]
pub fn node_stamps_rise()
    ensures { EveryJournal (λ parts parameters journal. NodesRise journal) }
{}
