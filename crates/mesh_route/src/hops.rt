ghost use Rattle.std.specs.Prelude.{◌≡◌, ◌<◌, ◌≤◌, ◌-◌, ◌^◌, ◌↔◌, ◌*◌, ◌+◌, ℕ, List, Some, [], replicate, length, IsTrue, IfSome, IsNone, IfOk, OnOk, OnErr, IsErrOf};
ghost use Rattle.alw_msg.specs.Lists.{is_nonempty};
ghost use Rattle.mesh_route.specs.Routes.{port_number, next_on};
ghost use Rattle.mesh_route.specs.Meshes.{Mesh, Act, count_of, queue_place, queue_of, arrivals_of, crossings_of};
ghost use Rattle.mesh_route.specs.Meshes.{mesh_start, after_injection, after_arrival, after_crossing, hop_from};
ghost use Rattle.mesh_route.specs.Keeping.{IsHead, without_head};
ghost use Rattle.mesh_route.specs.Deliveries.{is_idle, MeshIsAfter, ArrivalsAreInOrder, AllAreDelivered};

use crate::ports::{Hop, Port};
use crate::queues::{Packet, Queue, arrive, pass};
use crate::routes::{port_from, route_next};
use alw_msg::{Msg, MsgList};
use alw_num::{MOST_SIDE, NoMemory, NodeNo};
use std::alloc::Global;
use std::marker::Model;

/// Why a hop was not made: its queue is empty, or memory was refused.
#[derive(Clone, Copy, Debug, PartialEq, Eq)]
pub enum HopErr {
    NotEnabled,
    NoMemory,
}

impl From<NoMemory> for HopErr {
    ghost use Rattle.mesh_route.specs.declared.hops.HopErr.TheVariants.{NoMemory};

    ghost from_gives = { λ _ e. e ≡ NoMemory };

    fn from(_e: NoMemory) -> HopErr {
        HopErr::NoMemory
    }
}

/// The routers of a mesh, and what has arrived.
///
/// Each node has five input queues. A message goes along the row to the right column, and then along
/// that column; `inject` puts it at the end of the `Local` queue of its first node, and `hop` takes
/// the head of a queue one node further, or, at its last node, to its pair's arrivals.
#[derive(Drop)]
pub struct Hops {
    width: u8,
    height: u8,
    injected: u32,
    queues: Vec<Queue>,
    arrivals: Vec<MsgList>,
    crossings: Vec<u32>,
}

impl Model for Hops {
    ghost use Rattle.mesh_route.specs.Meshes.{Mesh};
    ghost use Rattle.mesh_route.specs.Keeping.{IsHops};

    ghost Value = { Mesh };

    ghost view = { λ h. record { width = h.width; height = h.height; injected = h.injected; queues = h.queues.items; arrivals = h.arrivals.items; crossings = h.crossings.items } };

    ghost invariant = { λ h. IsHops (record { width = h.width; height = h.height; injected = h.injected; queues = h.queues.items; arrivals = h.arrivals.items; crossings = h.crossings.items }) };
}

impl Hops {
    /// The routers of a mesh without a message.
    pub fn start(alloc: Global, width: u8, height: u8) -> Result<Hops, NoMemory>
        requires narrow { 1 ≤ width }
        requires wide { width ≤ MOST_SIDE }
        requires low { 1 ≤ height }
        requires high { height ≤ MOST_SIDE }
        ensures { IfOk result (λ hops. hops ≡ mesh_start width height) }
    {
        let count = usize::from(width) * usize::from(height);
        Ok(Hops {
            width,
            height,
            injected: 0,
            queues: empty_queues(alloc, count * 5)?,
            arrivals: empty_lists(alloc, count * count)?,
            crossings: vec![in alloc; 0; count * count]?,
        })
    }

    /// A message for node `to` at the end of the `Local` queue of node `from`.
    pub fn inject(&mut self, from: NodeNo, to: NodeNo, msg: Msg) -> Result<(), NoMemory>
        requires from { from.0 < count_of self.old }
        requires to { to.0 < count_of self.old }
        requires few { self.old.injected < 2 ^ 32 - 1 }
        ensures ok { OnOk result (self.new ≡ after_injection self.old (record { from = from; to = to; msg = msg })) }
        ensures err { OnErr result (self.new ≡ self.old) }
    {
        let packet = Packet { from, to, msg };
        let place = queue_place(from, Port::Local);
        self.queues[place].push(packet)?;
        self.injected += 1;
        Ok(())
    }

    /// The head of a queue goes to the next node of its route, or has arrived. NotEnabled comes
    /// exactly where that queue is empty.
    pub fn hop(&mut self, at: NodeNo, port: Port) -> Result<Hop, HopErr>
        requires { at.0 < count_of self.old }
        ensures ok { IfOk result (λ hop. hop_from self.old at.0 port ≡ Some (hop, self.new)) }
        ensures err { OnErr result (self.new ≡ self.old) }
        ensures empty { IsErrOf result HopErr.NotEnabled ↔ (queue_of self.old at.0 port ≡ []) }
        ensures sizes { (self.new.width ≡ self.old.width) × (self.new.height ≡ self.old.height) }
    {
        let Some(packet) = self.head(at, port) else {
            return Err(HopErr::NotEnabled);
        };
        let Some(next) = route_next(at, packet.to, self.width) else {
            self.deliver(at, port, packet)?;
            return Ok(Hop::Arrived { from: packet.from });
        };
        self.forward(at, port, packet, next)?;
        Ok(Hop::Crossed { to: next })
    }

    // The head of a queue. None exactly where the queue is empty.
    fn head(&self, at: NodeNo, port: Port) -> Option<Packet>
        requires { at.0 < count_of self.now }
        ensures some { IfSome result (λ packet. IsHead self.now at.0 port packet) }
        ensures none { IsNone result ↔ (queue_of self.now at.0 port ≡ []) }
    {
        self.queues[queue_place(at, port)].front()
    }

    // The head of a queue has arrived.
    fn deliver(&mut self, at: NodeNo, port: Port, packet: Packet) -> Result<(), NoMemory>
        requires head { IsHead self.old at.0 port packet }
        requires last { at.0 ≡ packet.to.0 }
        ensures ok { OnOk result (self.new ≡ after_arrival (without_head self.old at.0 port) packet) }
        ensures err { OnErr result (self.new ≡ self.old) }
    {
        let queue = queue_place(at, port);
        let count = u16::from(self.width) * u16::from(self.height);
        let pair = pair_place(count, packet.from, packet.to);
        arrive(
            &mut self.queues[queue],
            &mut self.arrivals[pair],
            packet.msg,
        )?;
        Ok(())
    }

    // The head of a queue crosses the wire to the next node of its route.
    fn forward(
        &mut self,
        at: NodeNo,
        port: Port,
        packet: Packet,
        next: NodeNo,
    ) -> Result<(), NoMemory>
        requires head { IsHead self.old at.0 port packet }
        requires next { next_on self.old.width at.0 packet.to.0 ≡ Some next.0 }
        ensures ok { OnOk result (self.new ≡ after_crossing (without_head self.old at.0 port) at.0 packet next.0) }
        ensures err { OnErr result (self.new ≡ self.old) }
    {
        let from = queue_place(at, port);
        let to = queue_place(next, port_from(at, next, self.width));
        let count = u16::from(self.width) * u16::from(self.height);
        let wire = pair_place(count, at, next);
        pass(&mut self.queues, from, to, packet)?;
        self.crossings[wire] += 1;
        Ok(())
    }

    /// A queue of a node has a message.
    pub fn holds(&self, at: NodeNo, port: Port) -> bool
        requires { at.0 < count_of self.now }
        ensures { result ≡ is_nonempty (queue_of self.now at.0 port) }
    {
        !self.queues[queue_place(at, port)].is_empty()
    }

    /// All queues are empty. Then each pair's arrivals are its injected messages, and each wire was
    /// crossed by the messages whose route goes over it.
    pub fn empty(&self) -> bool
        ensures idle { result ≡ is_idle self.now }
        ensures delivered { IsTrue result → (acts : List Act) → MeshIsAfter acts self.now → AllAreDelivered acts self.now }
    {
        for queue in &self.queues {
            if !queue.is_empty() {
                return false;
            }
        }
        true
    }

    /// How many messages were injected.
    pub fn injected(&self) -> u32
        ensures { result ≡ self.now.injected }
    {
        self.injected
    }

    /// How many hops went from one node to another.
    pub fn crossings(&self, a: NodeNo, b: NodeNo) -> u32
        requires a { a.0 < count_of self.now }
        requires b { b.0 < count_of self.now }
        ensures { result ≡ crossings_of self.now a.0 b.0 }
    {
        let count = u16::from(self.width) * u16::from(self.height);
        self.crossings[pair_place(count, a, b)]
    }

    /// The messages of a pair that have arrived: the first of those that were injected, in order,
    /// and the others stand in the queues on their route.
    pub fn arrivals(&self, from: NodeNo, to: NodeNo) -> &MsgList
        requires from { from.0 < count_of self.now }
        requires to { to.0 < count_of self.now }
        ensures list { result.now ≡ arrivals_of self.now from.0 to.0 }
        ensures in_order { ArrivalsAreInOrder self.now from.0 to.0 }
    {
        let count = u16::from(self.width) * u16::from(self.height);
        &self.arrivals[pair_place(count, from, to)]
    }
}

fn empty_queues(alloc: Global, count: usize) -> Result<Vec<Queue>, NoMemory>
    ensures { IfOk result (λ queues. queues.items ≡ replicate count []) }
{
    let mut queues = Vec::with_capacity(alloc, count)?;
    for _ in 0..count {
        queues.push_reserved(Queue::empty(alloc));
    }
    Ok(queues)
}

fn empty_lists(alloc: Global, count: usize) -> Result<Vec<MsgList>, NoMemory>
    ensures { IfOk result (λ lists. lists.items ≡ replicate count []) }
{
    let mut lists = Vec::with_capacity(alloc, count)?;
    for _ in 0..count {
        lists.push_reserved(MsgList::empty(alloc));
    }
    Ok(lists)
}

// The place of a queue among all queues.
fn queue_place(node: NodeNo, port: Port) -> usize
    ensures { result ≡ queue_place node.0 port }
{
    let number = match port {
        Port::Local => 0,
        Port::West => 1,
        Port::East => 2,
        Port::North => 3,
        Port::South => 4,
    };
    usize::from(node.0) * 5 + number
}

// The place of an ordered pair of nodes among all pairs of so many nodes.
fn pair_place(count: u16, from: NodeNo, to: NodeNo) -> usize
    ensures { result ≡ from.0 * count + to.0 }
{
    usize::from(from.0) * usize::from(count) + usize::from(to.0)
}
