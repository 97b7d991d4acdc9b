ghost use Rattle.std.specs.Prelude.{◌≡◌, ℕ, ◌<◌, nat_lt, ◌&&◌};
ghost use Rattle.alw_num.specs.NodeSets.{has_node, nodes_of};
ghost use Rattle.alw_msg.specs.Lists.{is_nonempty};
ghost use Rattle.alw_image.specs.declared.parts.Parts.{Parts};
ghost use Rattle.alw_image.specs.Images.{node_count};
ghost use Rattle.alw_image.specs.Parameters.{Parameters};
ghost use Rattle.alw_model.specs.Machine.{MachineState, link_at};
ghost use Rattle.alw_ready.specs.Rows.{instr_at, handle_at, delivery};
ghost use Rattle.alw_ready.specs.Fits.{may_happen, is_in_time, HeadsAreFit};

use crate::rows::Row;
use alw_num::{NodeNo, NodeSet};

/// A machine, as far as rows of its nodes need it.
pub trait View {
    ghost image: { Self → Parts };

    ghost parameters: { Self → Parameters };

    ghost state: { Self → MachineState };

    /// A node's row, with no sender in it: whether the node is in time, which it is where its clock isn't
    /// the greatest, and is below the limit, unless every context has halted; and whether its instruction
    /// and its handler's action are enabled within the limit.
    fn row(&self, node: NodeNo) -> Row
        requires { node.0 < node_count (image self.now) }
        ensures in_time { result.in_time ≡ is_in_time (parameters self.now) (state self.now) node.0 }
        ensures instr { result.instr ≡ may_happen (image self.now) (parameters self.now) (state self.now) (instr_at node.0) }
        ensures handle { result.handle ≡ may_happen (image self.now) (parameters self.now) (state self.now) (handle_at node.0) };

    /// A message at the head of a link may be delivered within the limit, where it is fit for its link.
    /// False where the link is empty.
    fn arrives(&self, from: NodeNo, to: NodeNo) -> bool
        requires from { from.0 < node_count (image self.now) }
        requires to { to.0 < node_count (image self.now) }
        requires fit { HeadsAreFit (image self.now) (state self.now) }
        ensures { result ≡ may_happen (image self.now) (parameters self.now) (state self.now) (delivery from.0 to.0) };

    /// The nodes that have a message on their link to this one.
    fn senders(&self, to: NodeNo) -> NodeSet
        requires { to.0 < node_count (image self.now) }
        ensures { (from : ℕ) → has_node (nodes_of result) from ≡
            (nat_lt from (node_count (image self.now)) && is_nonempty (link_at (image self.now) (state self.now) from to.0)) };
}
