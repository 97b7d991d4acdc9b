ghost use Rattle.std.specs.Prelude.{◌≡◌, ◌<◌, ◌≤◌, ◌↔◌, ℕ, Bool, false, true, if◌then◌else◌};
ghost use Rattle.alw_num.specs.NodeSets.{no_nodes, has_node, add_node, one_node, count_nodes, nodes_of};

use crate::pointers::Pointers;
use alw_num::{Line, MOST_NODES, Meta, NodeNo, NodeSet, State};

/// What hardware keeps of a line at its home (ASPLOS 1991, section 4): its state, its meta state, a
/// counter of the answers that are still to come, the line's bytes, and its pointers.
#[derive(Drop)]
pub struct HomeEntry {
    pub state: State,
    pub meta: Meta,
    pub acks: u32,
    pub body: Line,
    pub pointers: Pointers,
}

#[tactic(auto, using(crate::proofs::Counting::counting))]
impl HomeEntry {
    /// The entry of a line with these bytes, before any message: Trap-Always where it is to be so.
    pub fn start(body: Line, always: bool) -> HomeEntry
        ensures { result ≡ record { state = State.RO; meta = (if always then Meta.TrapAlways else Meta.Normal); acks = 0; body = body; pointers = no_nodes } }
    {
        HomeEntry {
            state: State::RO,
            meta: if always {
                Meta::TrapAlways
            } else {
                Meta::Normal
            },
            acks: 0,
            body,
            pointers: Pointers::none(),
        }
    }

    /// A node joins the pointers, of which at most `most` may stand there. False exactly where it is
    /// absent and `most` stand there.
    pub fn add_pointer(&mut self, node: NodeNo, most: u16) -> bool
        requires node { node.0 < MOST_NODES }
        requires few { count_nodes self.old.pointers ≤ most }
        ensures full { (result ≡ false) ↔ ((has_node self.old.pointers node.0 ≡ false) × (count_nodes self.old.pointers ≡ most)) }
        ensures entry { self.new ≡ (if result then record self.old { pointers = add_node self.old.pointers node.0 } else self.old) }
    {
        if self.pointers.has(node) {
            return true;
        }
        if self.pointers.len() == most {
            return false;
        }
        self.pointers.add(node);
        true
    }

    /// The pointers, as a set.
    #[inline(always)]
    pub fn pointers(&self) -> NodeSet
        ensures set { nodes_of result ≡ self.now.pointers }
        ensures within { (k : ℕ) → has_node self.now.pointers k ≡ true → k < MOST_NODES }
    {
        self.pointers.set()
    }

    /// No pointer is left.
    pub fn clear(&mut self)
        ensures { self.new ≡ record self.old { pointers = no_nodes } }
    {
        self.pointers = Pointers::none();
    }

    /// A node is left as the one pointer.
    pub fn only(&mut self, node: NodeNo)
        requires { node.0 < MOST_NODES }
        ensures { self.new ≡ record self.old { pointers = one_node node.0 } }
    {
        let mut pointers = Pointers::none();
        pointers.add(node);
        self.pointers = pointers;
    }
}
