ghost use Rattle.std.specs.Prelude.{◌≡◌, ◌<◌, ◌≤◌, ◌+◌, ◌↔◌, [], length, slice_get, Some, IsTrue, IfOk};
ghost use Rattle.alw_msg.specs.Sending.{with_message};

use crate::messages::{Kind, Msg};
use alw_num::{Line, LineNo, MOST_NODES, NoMemory, NodeNo};
use std::alloc::Global;
use std::marker::Model;

/// What one event sends: a list of messages of one node with one stamp, each with the node that it
/// goes to. It has room for a message to each node of a machine, so that no event needs memory.
#[derive(Drop)]
pub struct Sends {
    nodes: u32,
    src: NodeNo,
    stamp: u32,
    messages: Vec<(u16, Msg)>,
}

impl Model for Sends {
    ghost use Rattle.std.specs.Prelude.{◌≤◌, length, map, vec_capacity};
    ghost use Rattle.alw_num.specs.declared.node_sets.TheConstants.{MOST_NODES};
    ghost use Rattle.alw_msg.specs.Sending.{Sending};

    ghost Value = { Sending };

    ghost view = { λ s. record { room = s.nodes; src = s.src.0; stamp = s.stamp; messages = s.messages.items } };

    ghost invariant = { λ s. (s.nodes ≤ MOST_NODES) × (s.nodes ≤ vec_capacity s.messages) × (length s.messages.items ≤ s.nodes) };
}

impl Sends {
    /// Room for a message to each of so many nodes.
    pub fn room(alloc: Global, nodes: u32) -> Result<Sends, NoMemory>
        requires { nodes ≤ MOST_NODES }
        ensures room { IfOk result (λ s. s.room ≡ nodes) }
        ensures empty { IfOk result (λ s. s.messages ≡ []) }
    {
        let messages = Vec::with_capacity(alloc, nodes as usize)?;
        Ok(Sends {
            nodes,
            src: NodeNo(0),
            stamp: 0,
            messages,
        })
    }

    /// Begins the list of an event of node `src` with this stamp.
    pub fn begin(&mut self, src: NodeNo, stamp: u32)
        ensures { self.new ≡ record { room = self.old.room; src = src.0; stamp = stamp; messages = [] } }
    {
        self.messages.clear();
        self.src = src;
        self.stamp = stamp;
    }

    /// One message more, to a node. Of a kind that carries none the bytes are left out.
    pub fn push(&mut self, to: NodeNo, kind: Kind, line: LineNo, body: Line)
        requires { length self.old.messages < self.old.room }
        ensures { self.new ≡ with_message self.old to.0 kind line body }
    {
        let body = if kind.carries_body() {
            body
        } else {
            Line::ZERO
        };
        let msg = Msg {
            kind,
            line,
            src: self.src,
            stamp: self.stamp,
            body,
        };
        self.messages.push_reserved((to.0, msg));
    }

    /// The number of messages.
    pub fn len(&self) -> u32
        ensures { result ≡ length self.now.messages }
    {
        self.messages.len() as u32
    }

    /// The number of messages that there is still room for.
    pub fn free(&self) -> u32
        ensures left { result + length self.now.messages ≡ self.now.room }
        ensures most { self.now.room ≤ MOST_NODES }
    {
        self.nodes - self.messages.len() as u32
    }

    pub fn is_empty(&self) -> bool
        ensures { IsTrue result ↔ (self.now.messages ≡ []) }
    {
        self.messages.is_empty()
    }

    /// Message i and the node that it goes to.
    pub fn at(&self, i: u32) -> (NodeNo, Msg)
        requires { i < length self.now.messages }
        ensures { slice_get self.now.messages i ≡ Some (result.0.0, result.1) }
    {
        let (to, msg) = self.messages[i as usize];
        (NodeNo(to), msg)
    }
}
