ghost use Rattle.std.specs.Prelude.{◌≡◌, ◌<◌, ◌≤◌, ◌*◌, ◌+◌, ℕ, nat_lt, not, ◌&&◌, max, [], length, replicate, slice_get, if◌then◌else◌, IfOk, OnOk, OnErr};
ghost use Rattle.std.specs.Option.{option_copied};
ghost use Rattle.std.specs.List.{All, list_any};
ghost use Rattle.alw_num.specs.NodeSets.{has_node, add_node, drop_node, nodes_of};
ghost use Rattle.alw_msg.specs.Lists.{is_nonempty, front};
ghost use Rattle.alw_links.specs.Traffic.{link_in, in_flight, after_take, after_send, after_sends};

use crate::iters::Link;
use crate::pools::{END, Ends, Pool, pop, push, widen};
use alw_msg::{Msg, Sends};
use alw_num::{MOST_NODES, NoMemory, NodeNo, NodeSet};
use std::alloc::Global;
use std::marker::Model;

/// The links of a machine: one for each ordered pair of nodes, a node with itself too, first in,
/// first out (Lamport 1978).
///
/// A message stands in a place of one pool, that goes from chain to chain. `reserve` takes the
/// memory of places, and no other call takes any.
#[derive(Drop)]
pub struct Links {
    nodes: u32,
    links: Vec<Ends>,
    senders: Vec<NodeSet>,
    pool: Pool,
}

impl Model for Links {
    ghost use Rattle.alw_links.specs.Traffic.{Traffic};
    ghost use Rattle.alw_links.specs.Chains.{links_of};
    ghost use Rattle.alw_links.specs.Keeping.{IsTraffic};

    ghost Value = { Traffic };

    ghost view = { λ l. record { nodes = l.nodes; room = l.pool.room; links = links_of l.pool.places.items l.links.items } };

    ghost invariant = { λ l. IsTraffic l.nodes l.links.items l.senders.items l.pool.places.items l.pool.spare l.pool.room };
}

impl Links {
    /// The links of so many nodes, each without a message, and without room for one.
    pub fn start(alloc: Global, nodes: u32) -> Result<Links, NoMemory>
        requires { nodes ≤ MOST_NODES }
        ensures { IfOk result (λ l. l ≡ record { nodes = nodes; room = 0; links = replicate (nodes * nodes) [] }) }
    {
        let pairs = (nodes * nodes) as usize;
        let empty = Ends {
            first: END,
            last: END,
        };
        Ok(Links {
            nodes,
            links: vec![in alloc; empty; pairs]?,
            senders: vec![in alloc; NodeSet::empty(); nodes as usize]?,
            pool: Pool {
                places: Vec::new(alloc),
                spare: END,
                room: 0,
            },
        })
    }

    /// Room for at least so many messages more, or all as it was. NoMemory also comes where there
    /// would be 2^32 places. No call behind it takes memory.
    pub fn reserve(&mut self, count: u32) -> Result<(), NoMemory>
        ensures ok { OnOk result (self.new ≡ record self.old { room = max self.old.room count }) }
        ensures err { OnErr result (self.new ≡ self.old) }
    {
        if self.pool.room >= count {
            return Ok(());
        }
        self.grow(count)
    }

    // Room for so many messages, where there is less.
    #[cold]
    #[inline(never)]
    fn grow(&mut self, count: u32) -> Result<(), NoMemory>
        requires { self.old.room < count }
        ensures ok { OnOk result (self.new ≡ record self.old { room = count }) }
        ensures err { OnErr result (self.new ≡ self.old) }
    {
        let more = count - self.pool.room;
        widen(&self.links, &mut self.pool, more)
    }

    /// The number of messages more that there is room for.
    pub fn room(&self) -> u64
        ensures { result ≡ self.now.room }
    {
        u64::from(self.pool.room)
    }

    /// A message more at the end of a link.
    #[inline(always)]
    pub fn send(&mut self, from: NodeNo, to: NodeNo, msg: Msg)
        requires from { from.0 < self.old.nodes }
        requires to { to.0 < self.old.nodes }
        requires room { 1 ≤ self.old.room }
        ensures { self.new ≡ after_send self.old from.0 to.0 msg }
    {
        let at = place(self.nodes, from, to);
        let first = push(&mut self.links, &mut self.pool, at, msg);
        enter(&mut self.senders[to.0 as usize], from, first);
    }

    /// What an event of a node sends goes to the ends of the node's links, in order.
    #[inline(always)]
    pub fn send_all(&mut self, from: NodeNo, sends: &Sends)
        requires from { from.0 < self.old.nodes }
        requires to { All (λ send. send.0 < self.old.nodes) sends.now.messages }
        requires room { length sends.now.messages ≤ self.old.room }
        ensures { self.new ≡ after_sends self.old from.0 sends.now.messages }
    {
        for i in 0..sends.len() {
            let (to, msg) = sends.at(i);
            self.send(from, to, msg);
        }
    }

    /// Takes the head off a link. None exactly where the link is empty.
    #[inline(always)]
    pub fn take(&mut self, from: NodeNo, to: NodeNo) -> Option<Msg>
        requires from { from.0 < self.old.nodes }
        requires to { to.0 < self.old.nodes }
        ensures message { result ≡ front (link_in self.old from.0 to.0) }
        ensures links { self.new ≡ after_take self.old from.0 to.0 }
    {
        let at = place(self.nodes, from, to);
        if self.links[at].first == END {
            return None;
        }
        let (msg, more) = pop(&mut self.links, &mut self.pool, at);
        leave(&mut self.senders[to.0 as usize], from, more);
        Some(msg)
    }

    /// The head of a link. None exactly where the link is empty.
    #[inline(always)]
    pub fn head(&self, from: NodeNo, to: NodeNo) -> Option<&Msg>
        requires from { from.0 < self.now.nodes }
        requires to { to.0 < self.now.nodes }
        ensures { option_copied result ≡ front (link_in self.now from.0 to.0) }
    {
        let first = self.links[place(self.nodes, from, to)].first;
        if first == END {
            None
        } else {
            Some(&self.pool.places[first as usize].msg)
        }
    }

    /// Message i of a link, where the head is message 0. None exactly where the link has no more
    /// than i. It goes over the i messages before.
    pub fn at(&self, from: NodeNo, to: NodeNo, i: u32) -> Option<Msg>
        requires from { from.0 < self.now.nodes }
        requires to { to.0 < self.now.nodes }
        ensures { result ≡ slice_get (link_in self.now from.0 to.0) i }
    {
        self.link(from, to).nth(i as usize).copied()
    }

    /// The messages of a link, its head first.
    pub fn link(&self, from: NodeNo, to: NodeNo) -> Link<'_>
        requires from { from.0 < self.now.nodes }
        requires to { to.0 < self.now.nodes }
        ensures { result ≡ link_in self.now from.0 to.0 }
    {
        Link::start(
            &self.pool.places,
            self.links[place(self.nodes, from, to)].first,
        )
    }

    /// The nodes with something on the way to a node.
    pub fn senders(&self, to: NodeNo) -> NodeSet
        requires { to.0 < self.now.nodes }
        ensures { (from : ℕ) → has_node (nodes_of result) from ≡ (nat_lt from self.now.nodes && is_nonempty (link_in self.now from to.0)) }
    {
        self.senders[to.0 as usize]
    }

    /// The number of messages on all links.
    pub fn len(&self) -> u64
        ensures { result ≡ in_flight self.now.links }
    {
        self.pool.places.len() as u64 - u64::from(self.pool.room)
    }

    /// No link has a message.
    pub fn is_empty(&self) -> bool
        ensures { result ≡ not (list_any is_nonempty self.now.links) }
    {
        self.pool.places.len() == self.pool.room as usize
    }
}

// The place of a pair's link.
fn place(nodes: u32, from: NodeNo, to: NodeNo) -> usize
    requires nodes { nodes ≤ MOST_NODES }
    requires from { from.0 < nodes }
    ensures { result ≡ from.0 * nodes + to.0 }
{
    from.0 as usize * nodes as usize + to.0 as usize
}

// A message of a node was sent: the node is among the senders already, unless the link was empty.
#[inline(always)]
fn enter(senders: &mut NodeSet, from: NodeNo, first: bool)
    requires { from.0 < MOST_NODES }
    ensures { nodes_of senders.new ≡ (if first then add_node (nodes_of senders.old) from.0 else nodes_of senders.old) }
{
    if first {
        senders.add(from);
    }
}

// A message of a node was taken: the node leaves the senders, unless it has more on the way.
#[inline(always)]
fn leave(senders: &mut NodeSet, from: NodeNo, more: bool)
    ensures { nodes_of senders.new ≡ (if more then nodes_of senders.old else drop_node (nodes_of senders.old) from.0) }
{
    if !more {
        senders.remove(from);
    }
}
