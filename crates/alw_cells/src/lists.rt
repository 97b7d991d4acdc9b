ghost use Rattle.std.specs.Prelude.{◌≡◌, ◌<◌, ◌+◌, ◌≤◌, [], ◌∷◌, ◌++◌, not, length, IfSome, OnOk, OnErr};
ghost use Rattle.std.specs.Option.{option_copied};
ghost use Rattle.std.specs.VecDeque.{deque_len, deque_capacity};
ghost use Rattle.alw_msg.specs.Lists.{front, behind, is_nonempty};
ghost use Rattle.alw_cells.specs.Cells.{picked, without_first, as_carried};
ghost use Rattle.alw_cells.specs.Records.{BodyIsPlain};

use alw_msg::{Msg, Sends};
use alw_num::{Line, NoMemory, NodeNo};
use std::alloc::Global;
use std::collections::VecDeque;
use std::marker::Model;

/// The messages that have come from a node, first in, first out. Contracts see the list. None has bytes
/// that its kind doesn't carry.
#[derive(Drop)]
pub struct InList {
    messages: VecDeque<Msg>,
}

impl Model for InList {
    ghost use Rattle.std.specs.Prelude.{List};
    ghost use Rattle.alw_msg.specs.declared.messages.Msg.{Msg};

    ghost Value = { List Msg };

    ghost view = { λ l. l.messages.items };

    ghost use Rattle.alw_cells.specs.Records.{BodiesArePlain};

    ghost invariant = { λ l. BodiesArePlain l.messages.items };
}

impl InList {
    /// The empty list, which takes no memory.
    pub fn empty(alloc: Global) -> InList
        ensures { result ≡ [] }
    {
        InList {
            messages: VecDeque::new(alloc),
        }
    }

    /// A message more at the end. Bytes that its kind doesn't carry are left out.
    pub fn push(&mut self, msg: Msg) -> Result<(), NoMemory>
        ensures ok { OnOk result (self.new ≡ self.old ++ as_carried msg ∷ []) }
        ensures err { OnErr result (self.new ≡ self.old) }
    {
        self.messages.push_back(carried(msg))?;
        Ok(())
    }

    /// The first message. None exactly where the list is empty.
    pub fn head(&self) -> Option<&Msg>
        ensures { option_copied result ≡ front self.now }
    {
        self.messages.front()
    }

    /// Takes the first message off. None exactly where the list is empty.
    pub fn pop(&mut self) -> Option<Msg>
        ensures message { result ≡ front self.old }
        ensures left { self.new ≡ behind self.old }
        ensures plain { IfSome result BodyIsPlain }
    {
        self.messages.pop_front()
    }

    /// The list has no message.
    pub fn is_empty(&self) -> bool
        ensures { result ≡ not (is_nonempty self.now) }
    {
        self.messages.is_empty()
    }
}

// A message as its kind carries it.
fn carried(msg: Msg) -> Msg
    ensures { result ≡ as_carried msg }
{
    if msg.kind.carries_body() {
        msg
    } else {
        Msg {
            body: Line::ZERO,
            ..msg
        }
    }
}

/// Takes the first message to a node out of messages with their receivers. None exactly where there is
/// none.
pub fn take_first(pending: &mut VecDeque<(u16, Msg)>, to: NodeNo) -> Option<Msg>
    ensures message { result ≡ front (picked to.0 pending.old.items) }
    ensures left { pending.new.items ≡ without_first to.0 pending.old.items }
{
    for at in 0..pending.len() {
        if pending[at].0 == to.0 {
            let (_, msg) = pending.remove(at)?;
            return Some(msg);
        }
    }
    None
}

/// What an event sent goes behind other messages, for which there is room.
#[inline(always)]
pub fn append(pending: &mut VecDeque<(u16, Msg)>, sent: &Sends)
    requires { deque_len pending.old + length sent.now.messages ≤ deque_capacity pending.old }
    ensures { pending.new.items ≡ pending.old.items ++ sent.now.messages }
{
    for i in 0..sent.len() {
        let (to, msg) = sent.at(i);
        pending.push_back_reserved((to.0, msg));
    }
}
