ghost use Rattle.std.specs.Prelude.{◌≡◌, ◌-◌, ◌^◌, max, true, nat_lt, ◌&&◌, ◌||◌};
ghost use Rattle.alw_msg.specs.Contents.{content};
ghost use Rattle.alw_model.specs.Messages.{is_fit};
ghost use Rattle.alw_model.specs.NodeStates.{may_reach};
ghost use Rattle.alw_model.specs.Machine.{has_halted};

use crate::meshes::Mesh;
use alw_msg::Msg;
use alw_node::Node;
use alw_num::{NodeNo, NodeSet};
use alw_ready::{Row, View};

impl View for Mesh {
    ghost image = { λ m. m.image };

    ghost parameters = { λ m. m.parameters };

    ghost state = { λ m. m.machine };

    #[inline(always)]
    fn row(&self, node: NodeNo) -> Row {
        let here = self.node(node);
        let in_time = self.is_in_time(here.clock());
        Row {
            in_time,
            instr: in_time && here.is_ready(),
            handle: in_time && here.has_packet(),
            ..Row::none()
        }
    }

    #[inline(always)]
    fn arrives(&self, from: NodeNo, to: NodeNo) -> bool {
        match self.head_between(from, to) {
            Some(msg) => self.lets_in(self.node(to), from, msg),
            None => false,
        }
    }

    #[inline(always)]
    fn senders(&self, to: NodeNo) -> NodeSet {
        self.senders_to(to)
    }
}

impl Mesh {
    // A node of this clock is in time.
    #[inline(always)]
    fn is_in_time(&self, clock: u32) -> bool
        ensures { result ≡ (nat_lt clock (2 ^ 32 - 1) && (nat_lt clock self.now.parameters.limit || has_halted self.now.machine)) }
    {
        clock < u32::MAX && (clock < self.params().limit() || self.has_halted())
    }

    // A message that is fit for its link may be delivered to a node within the limit.
    #[inline(always)]
    fn lets_in(&self, node: &Node, from: NodeNo, msg: &Msg) -> bool
        requires fit { is_fit node.now.parts from.0 node.now.number msg.now ≡ true }
        ensures { result ≡ (may_reach node.now.parts node.now.parameters node.now.state msg.now.line.0 (content msg.now) &&
            (nat_lt (max node.now.state.clock msg.now.stamp) (2 ^ 32 - 1) &&
            (nat_lt (max node.now.state.clock msg.now.stamp) self.now.parameters.limit || has_halted self.now.machine))) }
    {
        node.may_arrive(from, msg) && self.is_in_time(node.clock().max(msg.stamp))
    }
}
