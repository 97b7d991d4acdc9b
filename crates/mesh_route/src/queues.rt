ghost use Rattle.std.specs.Prelude.{◌≡◌, ◌≢◌, ◌<◌, ◌-◌, ◌^◌, ◌++◌, [], ◌∷◌, not, length, slice_set, slice_index_or, is_ok, if◌then◌else◌, OnOk, OnErr};
ghost use Rattle.alw_msg.specs.Lists.{is_nonempty, front, behind};

use alw_msg::{Msg, MsgList};
use alw_num::{NoMemory, NodeNo};
use std::alloc::Global;
use std::collections::VecDeque;
use std::marker::Model;

/// A message with the node that it was injected at and the node that it goes to.
#[derive(Clone, Copy, PartialEq, Eq)]
pub struct Packet {
    pub from: NodeNo,
    pub to: NodeNo,
    pub msg: Msg,
}

/// One input queue of a router, a ring that grows. Contracts see the list of its messages.
#[derive(Drop)]
pub struct Queue {
    packets: VecDeque<Packet>,
}

impl Model for Queue {
    ghost use Rattle.std.specs.Prelude.{List};
    ghost use Rattle.mesh_route.specs.declared.queues.Packet.{Packet};

    ghost Value = { List Packet };

    ghost view = { λ q. q.packets.items };
}

impl Queue {
    /// A queue without a message, which takes no memory.
    pub fn empty(alloc: Global) -> Queue
        ensures { result ≡ [] }
    {
        Queue {
            packets: VecDeque::new(alloc),
        }
    }

    /// The queue has no message.
    pub fn is_empty(&self) -> bool
        ensures { result ≡ not (is_nonempty self.now) }
    {
        self.packets.is_empty()
    }

    /// The first message. None exactly where the queue is empty.
    pub fn front(&self) -> Option<Packet>
        ensures { result ≡ front self.now }
    {
        self.packets.front().copied()
    }

    /// A message more at the end.
    pub fn push(&mut self, packet: Packet) -> Result<(), NoMemory>
        ensures ok { OnOk result (self.new ≡ self.old ++ packet ∷ []) }
        ensures err { OnErr result (self.new ≡ self.old) }
    {
        self.packets.push_back(packet)?;
        Ok(())
    }

    /// Takes the first message off, where there is one.
    pub fn pop(&mut self)
        ensures { self.new ≡ behind self.old }
    {
        let _ = self.packets.pop_front();
    }
}

/// The first message of a queue goes to the end of a list. Where memory is refused, all stays.
pub fn arrive(queue: &mut Queue, list: &mut MsgList, msg: Msg) -> Result<(), NoMemory>
    requires { length list.old < 2 ^ 32 - 1 }
    ensures queue { queue.new ≡ (if is_ok result then behind queue.old else queue.old) }
    ensures list { list.new ≡ (if is_ok result then list.old ++ msg ∷ [] else list.old) }
{
    list.push(msg)?;
    queue.pop();
    Ok(())
}

/// The first message of a queue goes to the end of another. Where memory is refused, all stays.
pub fn pass(queues: &mut Vec<Queue>, from: usize, to: usize, packet: Packet) -> Result<(), NoMemory>
    requires from { from < length queues.old.items }
    requires to { to < length queues.old.items }
    requires apart { from ≢ to }
    ensures ok { OnOk result (let left = slice_set queues.old.items from (behind (slice_index_or queues.old.items from [])) in
        queues.new.items ≡ slice_set left to (slice_index_or left to [] ++ packet ∷ [])) }
    ensures err { OnErr result (queues.new.items ≡ queues.old.items) }
{
    queues[to].push(packet)?;
    queues[from].pop();
    Ok(())
}
