ghost use Rattle.std.specs.Prelude.{◌≡◌, ◌<◌, nat_lt, if◌then◌else◌, [], ◌∷◌, ◌++◌, ℕ, List, length, option_to_list, IfOk, MatchResult};
ghost use Rattle.crossbeam_queue.specs.Passes.{view, IsSamePass, IsPassOf};
ghost use Rattle.alw_msg.specs.declared.messages.Msg.{Msg};
ghost use Rattle.alw_msg.specs.Lists.{front};
ghost use Rattle.alw_ruled.specs.Ends.{sender_at_start, receiver_at_start};
ghost use Rattle.alw_ruled.specs.Order.{known, MaySend, all_of};

use crate::rule::{Added, FirstInFirstOut, Halves, Taken, View, Whole};
use alw_msg::Msg;
use alw_num::NoMemory;
use crossbeam_queue::{Pass, RuledArrayQueue};
use std::alloc::Global;
use std::collections::VecDeque;
use std::marker::Model;
use std::sync::Wait;
use thiserror::Error;

type Queue = RuledArrayQueue<Msg, View, FirstInFirstOut>;

// The most messages of a link that both threads see. What is sent behind them waits at the sender's end.
const PLACES: usize = 4;

/// A link from one node to another: messages on their way between two threads, first in, first out. A
/// contract sees its name, which no other link has.
#[derive(Drop)]
pub struct Link {
    queue: Queue,
}

impl Model for Link {
    ghost use Rattle.alw_ruled.specs.Ends.{LinkName};

    ghost Value = { LinkName };

    ghost view = { λ l. l.queue.table.shared.table_id };
}

/// The right to push to a link, with the list of what was pushed: what went onto the queue, and behind it
/// what waits for a place there, which alone takes memory.
#[derive(Drop)]
pub struct SendPass {
    pass: Pass<Msg, View>,
    late: VecDeque<Msg>,
    count: u32,
}

impl Model for SendPass {
    ghost use Rattle.std.specs.Prelude.{◌≡◌, [], length};
    ghost use Rattle.alw_ruled.specs.Ends.{Sender};
    ghost use Rattle.alw_ruled.specs.Order.{MaySend, all_of};

    ghost Value = { Sender };

    ghost view = { λ p. record { link = p.pass.table_id; pushed = all_of p.pass.me.0.client p.late.items } };

    ghost invariant = { λ p. (p.pass.me.1 ≡ []) × MaySend p.pass.me.0.client
        × (length (all_of p.pass.me.0.client p.late.items) ≡ p.count) };
}

/// The right to pop from a link, with the list of what was popped, which takes no memory.
#[derive(Drop)]
pub struct RecvPass {
    pass: Pass<Msg, View>,
}

impl Model for RecvPass {
    ghost use Rattle.std.specs.Prelude.{◌≡◌, []};
    ghost use Rattle.alw_ruled.specs.Ends.{Receiver};
    ghost use Rattle.alw_ruled.specs.Order.{known, MayReceive};

    ghost Value = { Receiver };

    ghost view = { λ p. record { link = p.pass.table_id; popped = known p.pass.me.0.client.popped } };

    ghost invariant = { λ p. (p.pass.me.1 ≡ []) × MayReceive p.pass.me.0.client };
}

impl SendPass {
    /// A link takes 2^32 - 1 messages, and this one has taken fewer.
    pub fn has_room(&self) -> bool
        ensures { result ≡ nat_lt (length self.now.pushed) 4294967295 }
    {
        self.count < u32::MAX
    }
}

/// A new link with its only two passes.
#[derive(Drop)]
pub struct Ends {
    pub link: Link,
    pub sender: SendPass,
    pub receiver: RecvPass,
}

/// Memory was refused to a message, which comes back.
#[derive(Clone, Copy, Debug, PartialEq, Eq, Error)]
#[error("there is no memory for a message")]
pub struct SendErr {
    pub msg: Msg,
}

impl Link {
    /// A link on which nothing was pushed, with its passes.
    pub fn start<R: Wait>(_rt: &R, alloc: Global) -> Result<Ends, NoMemory>
        ensures sender { IfOk result (λ ends. ends.sender ≡ sender_at_start ends.link) }
        ensures receiver { IfOk result (λ ends. ends.receiver ≡ receiver_at_start ends.link) }
    {
        let (queue, mut sender) = Queue::ruled(alloc, PLACES)?;
        let receiver = queue.another::<Halves>(&mut sender);
        Ok(Ends {
            link: Link { queue },
            sender: SendPass {
                pass: sender,
                late: VecDeque::new(alloc),
                count: 0,
            },
            receiver: RecvPass { pass: receiver },
        })
    }

    /// Pushes a message. An error means want of memory alone, and then nothing was pushed. A message that
    /// finds no place, or others before it that wait, waits at this end for a `flush`.
    pub fn send<R: Wait>(&self, rt: &R, pass: &mut SendPass, msg: Msg) -> Result<(), SendErr>
        requires link { pass.old.link ≡ self.now }
        requires short { length pass.old.pushed < 4294967295 }
        ensures { MatchResult result (λ _. pass.new ≡ record pass.old { pushed = pass.old.pushed ++ msg ∷ [] }) (λ err. (err.msg ≡ msg) × (pass.new ≡ pass.old)) }
    {
        if pass.late.is_empty() && put(rt, &self.queue, &mut pass.pass, msg) {
            pass.count += 1;
            return Ok(());
        }
        if pass.late.push_back(msg).is_err() {
            return Err(SendErr { msg });
        }
        pass.count += 1;
        Ok(())
    }

    /// What waits at the sender's end goes onto the queue, as far as it has places. Answers whether nothing
    /// waits any longer. The clause says only that the list of what was pushed stays as it is.
    pub fn flush<R: Wait>(&self, rt: &R, pass: &mut SendPass) -> bool
        requires { pass.old.link ≡ self.now }
        ensures { pass.new ≡ pass.old }
    {
        put_late(rt, &self.queue, &mut pass.pass, &mut pass.late)
    }

    /// Pops the message that was pushed first of those on the way, or none. No clause says when none
    /// comes: the library's queue gives none where it was empty at some moment of the call.
    pub fn receive<R: Wait>(&self, rt: &R, pass: &mut RecvPass) -> Option<Msg>
        requires { pass.old.link ≡ self.now }
        ensures { pass.new ≡ record pass.old { popped = pass.old.popped ++ option_to_list result } }
    {
        self.queue.pop_as::<Taken, R>(rt, &mut pass.pass)
    }

    /// Ends a link: the number of messages that were pushed and not popped.
    pub fn close<R: Wait>(self, rt: &R, sender: SendPass, receiver: RecvPass) -> u32
        requires sender { sender.link ≡ self }
        requires receiver { receiver.link ≡ self }
        ensures { (left : List Msg) × (length left ≡ result) × (sender.pushed ≡ receiver.popped ++ left) }
    {
        let SendPass {
            mut pass,
            late,
            count: _,
        } = sender;
        let RecvPass { pass: receiver } = receiver;
        self.queue.absorb::<Halves>(&mut pass, receiver);
        let held = self.queue.len_as::<Whole, R>(rt, &mut pass);
        (held + late.len()) as u32
    }
}

// A message goes onto the queue, where there is a place for it. Answers whether there was one.
fn put<R: Wait>(rt: &R, queue: &Queue, pass: &mut Pass<Msg, View>, msg: Msg) -> bool
    requires queue { IsPassOf queue.now pass.old }
    requires sends { MaySend (view pass.old) }
    ensures queue { IsSamePass pass.old pass.new }
    ensures sends { MaySend (view pass.new) }
    ensures list { known (view pass.new).pushed ≡ (if result then known (view pass.old).pushed ++ msg ∷ [] else known (view pass.old).pushed) }
{
    queue.push_as::<Added, R>(rt, pass, msg).is_ok()
}

// What waits goes onto the queue, in order, as far as there are places for it. Answers whether nothing waits
// any longer.
fn put_late<R: Wait>(
    rt: &R,
    queue: &Queue,
    pass: &mut Pass<Msg, View>,
    late: &mut VecDeque<Msg>,
) -> bool
    requires queue { IsPassOf queue.now pass.old }
    requires sends { MaySend (view pass.old) }
    ensures queue { IsSamePass pass.old pass.new }
    ensures sends { MaySend (view pass.new) }
    ensures list { all_of (view pass.new) late.new.items ≡ all_of (view pass.old) late.old.items }
{
    while let Some(msg) = first_of(late) {
        if !put(rt, queue, pass, msg) {
            return false;
        }
        late.pop_front();
    }
    true
}

// The message that has waited longest.
fn first_of(late: &VecDeque<Msg>) -> Option<Msg>
    ensures { result ≡ front late.now.items }
{
    late.front().copied()
}
