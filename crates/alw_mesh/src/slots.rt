ghost use Rattle.std.specs.Prelude.{◌≡◌, ◌<◌, ◌+◌, ◌*◌, length};
ghost use Rattle.std.specs.Option.{option_map};
ghost use Rattle.alw_ctx.specs.Residents.{number_of};
ghost use Rattle.alw_image.specs.Images.{node_count};
ghost use Rattle.alw_model.specs.Contexts.{slot_at};
ghost use Rattle.alw_model.specs.Flat.{context_at};
ghost use Rattle.alw_model.specs.Runs.{flat_context};
ghost use Rattle.alw_mesh.specs.Readings.{node_in, flat_in};

use crate::machines::Machine;
use alw_msg::Status;
use alw_node::Node;
use alw_num::{LineNo, NodeNo};
use sparc_table::Regs;
use std::marker::Model;

/// A slot of a node, which has one context. Contracts see it as the definitions' slot.
#[derive(Drop)]
pub struct Slot<'a> {
    node: &'a Node,
    number: u8,
}

impl<'a> Model for Slot<'a> {
    ghost use Rattle.std.specs.Prelude.{◌<◌, length};
    ghost use Rattle.alw_model.specs.Contexts as contexts;

    ghost Value = { contexts.Slot };

    ghost view = { λ s. contexts.slot_at s.node.now.state.slots s.number };

    ghost invariant = { λ s. s.number < length s.node.now.state.slots };
}

impl<'a> Slot<'a> {
    // A slot of a node by its number.
    fn of(node: &'a Node, number: u8) -> Slot<'a>
        requires { number < length node.now.state.slots }
        ensures { result ≡ slot_at node.now.state.slots number }
    {
        Slot { node, number }
    }

    /// What its context does.
    pub fn status(&self) -> Status
        ensures { result ≡ self.now.status }
    {
        self.node.status(self.number)
    }

    /// The registers of its context.
    pub fn regs(&self) -> Regs
        ensures { result ≡ self.now.regs }
    {
        self.node.regs(self.number)
    }

    /// The line that its context has a hold on. None exactly where it has none.
    pub fn hold(&self) -> Option<LineNo>
        ensures { option_map number_of result ≡ self.now.hold }
    {
        self.node.held(self.number)
    }
}

impl Machine {
    /// A slot of a node. On the flat machine its context has the same registers and does the same, where one
    /// that waits counts as Ready.
    pub fn slot(&self, n: NodeNo, slot: u8) -> Slot<'_>
        requires node { n.0 < node_count self.now.image }
        requires slot { slot < self.now.image.contexts }
        ensures slot { result ≡ slot_at (node_in self.now n.0).slots slot }
        ensures flat { flat_context result ≡ context_at (flat_in self.now) (n.0 * self.now.image.contexts + slot) }
    {
        let node = self.mesh.node(n);
        let _slots = node.count(); // for its clause
        Slot::of(node, slot)
    }
}
