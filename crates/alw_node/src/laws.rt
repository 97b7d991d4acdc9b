ghost use Rattle.std.specs.Prelude.{◌≡◌, ℕ, Option};
ghost use Rattle.alw_msg.specs.declared.messages.Msg.{Msg};
ghost use Rattle.alw_msg.specs.declared.events.Event.{Event};
ghost use Rattle.alw_image.specs.declared.parts.Parts.{Parts};
ghost use Rattle.alw_image.specs.Parameters.{Parameters};
ghost use Rattle.alw_model.specs.NodeStates.{NodeState, node_start, is_enabled_at};
ghost use Rattle.alw_model.specs.NodeSteps.{node_step};
ghost use Rattle.alw_node.specs.Shares.{share_of};

/// The definitions of one node read no more of an image than the node's share: by the share it starts
/// as by the image, the same events are enabled at it, and each does the same.
#[tactic(auto, using(crate::proofs::KeptMembers::start_same, crate::proofs::KeptMembers::enabled_same, crate::proofs::KeptMembers::step_same))]
pub fn shares_are_enough()
    ensures start { (parts : Parts) (number : ℕ) → node_start (share_of parts number) number ≡ node_start parts number }
    ensures enabled { (parts : Parts) (parameters : Parameters) (number : ℕ) (node : NodeState) (event : Event) (head : Option Msg) → is_enabled_at (share_of parts number) parameters number node event head ≡ is_enabled_at parts parameters number node event head }
    ensures step { (parts : Parts) (parameters : Parameters) (number : ℕ) (node : NodeState) (event : Event) (taken : Option Msg) → node_step (share_of parts number) parameters number node event taken ≡ node_step parts parameters number node event taken }
{}
