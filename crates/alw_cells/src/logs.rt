ghost use Rattle.std.specs.Prelude.{◌≡◌, ◌<◌, ◌+◌, ◌↔◌, false, List, [], ◌∷◌, ◌++◌, length, IsTrue, OnOk, OnErr};
ghost use Rattle.alw_model.specs.Threads.{took_from, sent_to, IsFront};
ghost use Rattle.alw_cells.specs.Layout.{log_bytes};
ghost use Rattle.alw_msg.specs.declared.messages.Msg.{Msg};
ghost use Rattle.alw_cells.specs.Records.{IsRecord, StampsAreBelow, Ascends};
ghost use Rattle.alw_cells.specs.Receiving.{took_by};
ghost use Rattle.alw_cells.specs.Logs.{reading_of};

use crate::addressed::SentTo;
use crate::cursors::Cursor;
use crate::writing::put_record;
use alw_msg::{Entry, Event, Msg, Sends};
use alw_num::{NoMemory, NodeNo, Sequence};
use std::alloc::Global;
use std::marker::Model;

// The most bytes of a record of an event that sends nothing, and of each message that it sends.
const MOST_RECORD: usize = 38;

const MOST_SENT: usize = 23;

/// What a node did: its events in order, each with the message that it took and those that it sent,
/// with their receivers. Stamps rise. It has fewer than 2^32 events, and keeps them as bytes. Contracts
/// see the node's number, the list, and the room that is kept for one event more.
#[derive(Drop)]
pub struct Log {
    node: NodeNo,
    events: u32,
    bytes: Vec<u8>,
    room: u32,
}

impl Model for Log {
    ghost use Rattle.std.specs.Prelude.{vec_capacity};
    ghost use Rattle.alw_cells.specs.Logs.{Written};
    ghost use Rattle.alw_cells.specs.Records.{records_in, ArePacked};

    ghost Value = { Written };

    ghost view = { λ l. record { number = l.node.0; entries = records_in l.node.0 l.events l.bytes.items; room = l.room } };

    ghost invariant = { λ l. ArePacked l.node.0 l.events l.bytes.items l.room (vec_capacity l.bytes) };
}

/// The logs of all nodes, by number.
pub type Logs = Sequence<Log>;

impl Log {
    /// The empty log of a node, which takes no memory.
    pub fn empty(alloc: Global, node: NodeNo) -> Log
        ensures { result ≡ record { number = node.0; entries = []; room = 0 } }
    {
        Log {
            node,
            events: 0,
            bytes: Vec::new(alloc),
            room: 0,
        }
    }

    /// The number of events.
    pub fn len(&self) -> u32
        ensures { result ≡ length self.now.entries }
    {
        self.events
    }

    /// The log has no event.
    pub fn is_empty(&self) -> bool
        ensures { IsTrue result ↔ (self.now.entries ≡ []) }
    {
        self.events == 0
    }

    /// The log as bytes: a record of each event.
    pub fn bytes(&self) -> &[u8]
        ensures { result.now ≡ log_bytes self.now.entries }
    {
        &self.bytes
    }

    /// Reads the log from its beginning.
    pub fn cursor(&self) -> Cursor<'_>
        ensures reading { result ≡ reading_of self.now.entries }
        ensures ascends { Ascends self.now.entries }
    {
        Cursor::over(self.node, self.events, &self.bytes)
    }

    /// What the log took of a node is a front of what the node's log sent to another.
    pub fn took_front(&self, from: u32, sender: &Log, to: u32) -> bool
        ensures { IsTrue result ↔ IsFront (took_from from self.now.entries) (sent_to to sender.now.entries) }
    {
        let mut sent = SentTo::all(sender.cursor(), to);
        let mut taken = self.cursor();
        while let Some(entry) = taken.next() {
            if !follow(entry.event, taken.taken(), from, &mut sent) {
                return false;
            }
        }
        true
    }

    /// Makes room for one event more with up to so many messages, or leaves all as it was. A log of
    /// 2^32 - 1 events is refused too.
    #[inline(always)]
    pub fn reserve(&mut self, sends: u32) -> Result<(), NoMemory>
        requires { sends < 4294967295 }
        ensures ok { OnOk result (self.new ≡ record self.old { room = sends + 1 }) }
        ensures few { OnOk result (length self.old.entries < 4294967295) }
        ensures err { OnErr result (self.new ≡ self.old) }
    {
        if self.events == u32::MAX {
            return Err(NoMemory);
        }
        self.bytes
            .reserve(MOST_RECORD + MOST_SENT * sends as usize)?;
        self.room = sends + 1;
        Ok(())
    }

    /// One event more of the node, of a greater stamp than those before it, with the message that it took
    /// and those that it sent. It takes no memory.
    #[inline(always)]
    pub fn push(&mut self, entry: Entry, taken: Option<Msg>, sent: &Sends)
        requires record { IsRecord self.old.number (record { entry = entry; taken = taken; sent = sent.now.messages }) }
        requires stamp { StampsAreBelow entry.stamp self.old.entries }
        requires room { length sent.now.messages < self.old.room }
        ensures { self.new ≡ record { number = self.old.number; entries = self.old.entries ++ record { entry = entry; taken = taken; sent = sent.now.messages } ∷ []; room = 0 } }
    {
        put_record(&mut self.bytes, entry, taken, sent);
        self.events += 1;
        self.room = 0;
    }
}

// The message that an event took of a node, if it took one, is the next that was sent.
fn follow(event: Event, taken: Option<Msg>, from: u32, sent: &mut SentTo<'_>) -> bool
    ensures follows { IsTrue result → sent.old ≡ took_by from event taken ++ sent.new }
    ensures differs { result ≡ false → (rest : List Msg) → IsFront (took_by from event taken ++ rest) sent.old → ⊥ }
{
    match (event, taken) {
        (Event::Deliver { from: sender, .. }, Some(msg)) if u32::from(sender.0) == from => {
            sent.next() == Some(msg)
        }
        _ => true,
    }
}
