ghost use Rattle.std.specs.Prelude.{◌≡◌};
ghost use Rattle.alw_msg.specs.Events.{node_of};

use alw_num::{NodeNo, Sequence};

/// One atomic step of the machine: an instruction of a node, an action of its trap handler, the
/// delivery of the message at the head of a link, or an eviction from a set of a node's cache.
#[derive(Clone, Copy, Debug, PartialEq, Eq)]
pub enum Event {
    Instr { node: NodeNo },
    Handle { node: NodeNo },
    Deliver { from: NodeNo, to: NodeNo },
    Evict { node: NodeNo, set: u32 },
}

impl Event {
    /// The node whose state the event changes.
    pub fn node(self) -> NodeNo
        ensures { result.0 ≡ node_of self }
    {
        match self {
            Event::Instr { node } | Event::Handle { node } | Event::Evict { node, .. } => node,
            Event::Deliver { to, .. } => to,
        }
    }
}

/// An event with its stamp, a logical clock (Lamport 1978).
#[derive(Clone, Copy, Debug, PartialEq, Eq)]
pub struct Entry {
    pub stamp: u32,
    pub event: Event,
}

/// The events of a run, in order.
pub type Journal = Sequence<Entry>;

/// Printed words, each with the number of the context that printed it, in order.
pub type Prints = Sequence<(u32, u32)>;

/// Words of shared data, each as its address and value.
pub type Words = Sequence<(u32, u32)>;
