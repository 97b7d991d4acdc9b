ghost use Rattle.std.specs.Prelude.{◌≡◌, ◌<◌, [], ◌∷◌, IsTrue, Option, Some};
ghost use Rattle.alw_num.specs.NodeSets.{nodes_of, drop_node};
ghost use Rattle.alw_msg.specs.Kinds.{to_memory};
ghost use Rattle.alw_model.specs.FullMap.{home_start, write_shared, recall, give_back, others, sole, acknowledge};
ghost use Rattle.alw_model.specs.LimitLess.{keeping_request, keeping_return};
ghost use Rattle.dir_full.specs.Reactions.{Acts, HasRoom, ended, with_sends};

use crate::sets::{invalidate, sole_member};
use alw_model::Keeping;
use alw_msg::{Kind, Msg, Sends};
use alw_num::{Line, NodeSet, State};
use std::marker::Model;

/// A full-map entry of one line (ASPLOS 1991, the memory-side states and transitions): its state,
/// a pointer to each node that may have a copy, a counter of the answers that are still to come,
/// and the line's bytes.
#[derive(Drop)]
pub struct FullMap {
    state: State,
    pointers: NodeSet,
    acks: u32,
    body: Line,
}

impl Model for FullMap {
    ghost use Rattle.std.specs.Prelude.{◌≡◌, ◌≤◌};
    ghost use Rattle.alw_num.specs.NodeSets.{nodes_of};
    ghost use Rattle.alw_model.specs.FullMap.{Home};

    ghost Value = { Home };

    ghost view = { λ e. record { state = e.state; pointers = nodes_of e.pointers; acks = e.acks; body = e.body } };
}

impl FullMap {
    /// The entry of a line with these bytes, before any message.
    pub fn start(body: Line) -> FullMap
        ensures { result ≡ home_start body }
    {
        FullMap {
            state: State::RO,
            pointers: NodeSet::empty(),
            acks: 0,
            body,
        }
    }

    /// The entry with this state, these pointers P, this counter and these bytes.
    pub fn of(state: State, pointers: NodeSet, acks: u32, body: Line) -> FullMap
        ensures { result ≡ record { state = state; pointers = nodes_of pointers; acks = acks; body = body } }
    {
        FullMap {
            state,
            pointers,
            acks,
            body,
        }
    }

    pub fn state(&self) -> State
        ensures { result ≡ self.now.state }
    {
        self.state
    }

    /// The pointers P.
    pub fn pointers(&self) -> NodeSet
        ensures { nodes_of result ≡ self.now.pointers }
    {
        self.pointers
    }

    /// The number of answers that are still to come.
    pub fn acks(&self) -> u32
        ensures { result ≡ self.now.acks }
    {
        self.acks
    }

    /// The line's bytes.
    pub fn body(&self) -> Line
        ensures { result ≡ self.now.body }
    {
        self.body
    }

    /// What the home does with a message to memory, by the home table. What it sends is appended to
    /// `sent`; the answer says what becomes of P.
    pub fn act(&mut self, msg: &Msg, sent: &mut Sends) -> Keeping
        requires to_memory { IsTrue (to_memory msg.now.kind) }
        requires room { HasRoom self.old.pointers msg.now.src.0 sent.old }
        ensures { Acts self.old self.new sent.old sent.new result msg.now }
    {
        let _fits = sent.free(); // for its clause
        match (self.state, msg.kind) {
            (State::RO, Kind::RREQ) => {
                self.pointers = self.pointers.with(msg.src);
                sent.push(msg.src, Kind::RDATA, msg.line, self.body);
                Keeping::Joined
            }
            (State::RO, Kind::WREQ) => {
                self.write_shared(msg, sent);
                Keeping::Alone
            }
            (State::RW, Kind::RREQ) => self.recall(State::RT, msg, sent),
            (State::RW, Kind::WREQ) => self.recall(State::WT, msg, sent),
            (State::RW, Kind::REPM) => self.give_back(msg),
            (State::RT | State::WT, Kind::RREQ | Kind::WREQ) => {
                sent.push(msg.src, Kind::BUSY, msg.line, Line::ZERO);
                Keeping::Kept
            }
            (State::RT | State::WT, Kind::REPM) => {
                self.body = msg.body;
                Keeping::Kept
            }
            (State::RT | State::WT, Kind::UPDATE) => {
                self.end(msg.body, msg, sent);
                Keeping::Kept
            }
            (State::RT | State::WT, Kind::ACKC) => {
                self.acknowledge(msg, sent);
                Keeping::Kept
            }
            _ => Keeping::Kept,
        }
    }

    // Read-Only, WREQ: the sender is alone, or an INV goes to each other member.
    fn write_shared(&mut self, msg: &Msg, sent: &mut Sends)
        requires room { HasRoom self.old.pointers msg.now.src.0 sent.old }
        ensures entry { self.new ≡ (write_shared self.old msg.now.src.0 (others self.old.pointers msg.now.src.0)).0 }
        ensures sends { sent.new ≡ with_sends sent.old msg.now.line.0 (write_shared self.old msg.now.src.0 (others self.old.pointers msg.now.src.0)).1 }
    {
        let _fits = sent.free(); // for its clause
        let others = self.pointers.without(msg.src);
        self.pointers = NodeSet::empty().with(msg.src);
        if others.is_empty() {
            self.state = State::RW;
            sent.push(msg.src, Kind::WDATA, msg.line, self.body);
        } else {
            self.state = State::WT;
            self.acks = others.count();
            invalidate(others, msg.line, sent);
        }
    }

    // Read-Write, a request: an INV goes to the owner, where that is another node.
    fn recall(&mut self, state: State, msg: &Msg, sent: &mut Sends) -> Keeping
        requires room { HasRoom self.old.pointers msg.now.src.0 sent.old }
        ensures entry { self.new ≡ (recall self.old msg.now.src.0 state (sole self.old.pointers)).0 }
        ensures sends { sent.new ≡ with_sends sent.old msg.now.line.0 (recall self.old msg.now.src.0 state (sole self.old.pointers)).1 }
        ensures keeping { result ≡ keeping_request msg.now.src.0 (sole self.old.pointers) }
    {
        let _fits = sent.free(); // for its clause
        match sole_member(self.pointers) {
            Some(owner) if owner != msg.src => {
                self.state = state;
                self.pointers = NodeSet::empty().with(msg.src);
                self.acks = 1;
                sent.push(owner, Kind::INV, msg.line, Line::ZERO);
                Keeping::Alone
            }
            _ => Keeping::Kept,
        }
    }

    // Read-Write, REPM: the line comes back, where the owner sends it.
    fn give_back(&mut self, msg: &Msg) -> Keeping
        ensures entry { self.new ≡ (give_back self.old msg.now.src.0 msg.now.body (sole self.old.pointers)).0 }
        ensures keeping { result ≡ keeping_return msg.now.src.0 (sole self.old.pointers) }
    {
        if sole_member(self.pointers) != Some(msg.src) {
            return Keeping::Kept;
        }
        self.state = State::RO;
        self.pointers = NodeSet::empty();
        self.body = msg.body;
        Keeping::Emptied
    }

    // The last answer came, with the body as it then is: the line goes to the node that asked.
    fn end(&mut self, body: Line, msg: &Msg, sent: &mut Sends)
        requires empty { sent.old.messages ≡ [] }
        requires room { 0 < sent.old.room }
        ensures entry { self.new ≡ (ended self.old body self.old.state).0 }
        ensures sends { sent.new ≡ with_sends sent.old msg.now.line.0 (ended self.old body self.old.state).1 }
    {
        let (state, kind) = match self.state {
            State::RT => (State::RO, Kind::RDATA),
            State::WT => (State::RW, Kind::WDATA),
            State::RO | State::RW => return,
        };
        if let Some(node) = sole_member(self.pointers) {
            self.state = state;
            self.acks = 0;
            self.body = body;
            sent.push(node, kind, msg.line, body);
        }
    }

    // Read-Transaction or Write-Transaction, ACKC: one answer less is to come.
    fn acknowledge(&mut self, msg: &Msg, sent: &mut Sends)
        requires empty { sent.old.messages ≡ [] }
        requires room { 0 < sent.old.room }
        ensures entry { self.new ≡ (acknowledge self.old (ended self.old self.old.body self.old.state) self.old.acks).0 }
        ensures sends { sent.new ≡ with_sends sent.old msg.now.line.0 (acknowledge self.old (ended self.old self.old.body self.old.state) self.old.acks).1 }
    {
        match self.acks {
            0 => {}
            1 => self.end(self.body, msg, sent),
            _ => self.acks -= 1,
        }
    }
}
