ghost use Rattle.std.specs.Prelude.{◌≡◌, ◌<◌, ◌≤◌, ◌==◌, ℕ, [], true, false, nat_le, not, cond, length, replicate, slice_set, option_copied, Some, None, IsTrue, IfSome, IfOk, OnOk, OnErr};
ghost use Rattle.std.specs.List.{list_any};
ghost use Rattle.std.specs.Option.{option_map};
ghost use Rattle.std.specs.Arc.{arc_value};
ghost use Rattle.alw_num.specs.NodeSets.{has_node, nodes_of};
ghost use Rattle.alw_msg.specs.Lists.{front, behind, is_nonempty};
ghost use Rattle.alw_msg.specs.Statuses as statuses;
ghost use Rattle.alw_image.specs.Images.{node_count};
ghost use Rattle.alw_model.specs.NodeStates.{is_enabled_at, stamp_of};
ghost use Rattle.alw_node.specs.Nodes.{IsNode};
ghost use Rattle.alw_cells.specs.Cells.{IsCell, IsSpent, cell_start, in_from, out_to, as_carried, after_coming, after_giving, CellIsSplit};
ghost use Rattle.alw_cells.specs.Records.{BodyIsPlain};
ghost use Rattle.alw_cells.specs.Choice.{taken_by, come_taken, may_happen, next_events, asked_eviction, is_evicted, picked_event, Happens, StepsCell};
ghost use Rattle.alw_cells.specs.Keeping.{AreSenders};
ghost use Rattle.alw_cells.specs.declared.cells.Stepped.TheVariants as Stepped;
ghost use Rattle.alw_ready.specs.Rows.{instr_at, handle_at, delivery, row_count};
ghost use Rattle.alw_msg.specs.Events.{is_evict};

use crate::lists::{InList, append, take_first};
use crate::logs::Log;
use crate::parts::CellParts;
use alw_image::{Image, Params};
use alw_model::Did;
use alw_msg::{Entry, Event, Msg, Sends, Status};
use alw_node::{Node, Program};
use alw_num::{MOST_NODES, NoMemory, NodeNo, NodeSet, Roomy};
use alw_ready::Row;
use std::alloc::Global;
use std::collections::VecDeque;
use std::marker::Model;
use std::sync::Arc;

/// What a step of a cell was: an event, with its entry and what it did; or none, since no main event of
/// the node may happen.
#[derive(Clone, Copy, PartialEq, Eq)]
pub enum Stepped {
    Did { entry: Entry, did: Did },
    Idle,
}

/// A node with its log, an in list for each sender, what it has sent and not given out, and what each
/// event of the log did. Its type keeps that the log is a local run of the node, that the node is as the
/// log leaves it, that what is left to give out to a node is a back part of what the log sent there, and
/// that the events did what is kept of them (stamps after Lamport 1978).
#[derive(Drop)]
pub struct NodeCell {
    node: Node,
    log: Log,
    come: Vec<InList>,
    senders: NodeSet,
    pending: VecDeque<(u16, Msg)>,
    sent: Sends,
    dids: Roomy<Did>,
}

impl Model for NodeCell {
    ghost use Rattle.alw_cells.specs.Cells.{Cell};
    ghost use Rattle.alw_cells.specs.Keeping.{LogIsFiled};

    ghost Value = { Cell };

    ghost view = { λ c. record { node = c.node; log = c.log.entries; come = c.come.items; pending = c.pending.items; dids = c.dids.list } };

    ghost invariant = { λ c. LogIsFiled c.node c.log c.come.items c.senders c.pending.items c.sent c.dids.list };
}

impl NodeCell {
    /// A node at the start of an image, with a program of its own. Its log and lists are empty.
    pub fn start(
        alloc: Global,
        image: &Image,
        params: &Params,
        node: NodeNo,
    ) -> Result<NodeCell, NoMemory>
        requires { node.0 < node_count image.now }
        ensures { IfOk result (λ c. c ≡ cell_start image.now params.now node.0) }
    {
        let program = Arc::new(alloc, Program::of(image.code())?)?;
        NodeCell::start_shared(alloc, image, params, node, &program)
    }

    /// A node at the start of an image, which shares the program with whoever else has it. Its log and
    /// lists are empty.
    pub fn start_shared(
        alloc: Global,
        image: &Image,
        params: &Params,
        node: NodeNo,
        program: &Arc<Program, Global>,
    ) -> Result<NodeCell, NoMemory>
        requires node { node.0 < node_count image.now }
        requires program { arc_value program.now ≡ image.now.code }
        ensures { IfOk result (λ c. c ≡ cell_start image.now params.now node.0) }
    {
        let count = image.nodes();
        let started = Node::start_shared(alloc, image, params, node, program)?;
        Ok(NodeCell {
            node: started,
            log: Log::empty(alloc, node),
            come: lists(alloc, count)?,
            senders: NodeSet::empty(),
            pending: VecDeque::new(alloc),
            sent: Sends::room(alloc, u32::from(count))?,
            dids: Roomy::empty(alloc),
        })
    }

    /// One event of the node: of its main events that may happen on what has come, the one that the
    /// number picks, or an eviction that it asks for. Idle exactly where no main event may happen, and
    /// then and where memory is refused all is as it was.
    #[inline(always)]
    pub fn step(&mut self, pick: u32) -> Result<Stepped, NoMemory>
        ensures { StepsCell self.old pick self.new result }
    {
        match self.pick(pick) {
            Some(Event::Instr { node }) => self.happen(Event::Instr { node }),
            Some(event) => self.happen_apart(event),
            None => Ok(self.idle()),
        }
    }

    /// True only where each number picks an instruction, so that a step takes no other event. No clause says
    /// when it is false.
    #[inline(always)]
    pub fn is_alone(&self) -> bool
        ensures { IsTrue result → ((pick : ℕ) → picked_event self.now pick ≡ Some (instr_at self.now.node.number)) }
    {
        let node = self.node.number();
        self.senders.is_empty()
            && self.node.params().evict() == 0
            && !self.node.has_packet()
            && self.may(Event::Instr { node })
    }

    /// A message more at the end of the in list from a node, or all as it was. Bytes that its kind doesn't
    /// carry are left out.
    pub fn take_in(&mut self, from: NodeNo, msg: Msg) -> Result<(), NoMemory>
        requires { from.0 < node_count self.old.node.parts }
        ensures ok { OnOk result (self.new ≡ after_coming self.old from.0 (as_carried msg)) }
        ensures err { OnErr result (self.new ≡ self.old) }
    {
        self.come[from.0 as usize].push(msg)?;
        self.senders = self.senders.with(from);
        Ok(())
    }

    /// Takes the front message off the out list to a node. None exactly where that is empty.
    pub fn give_out(&mut self, to: NodeNo) -> Option<Msg>
        ensures message { result ≡ front (out_to self.old to.0) }
        ensures left { self.new ≡ after_giving self.old to.0 }
    {
        take_first(&mut self.pending, to)
    }

    /// The receiver of the message that waits longest to be given out. None exactly where none waits.
    pub fn first_out(&self) -> Option<NodeNo>
        ensures { option_map (λ to. to.0) result ≡ option_map (λ send. send.0) (front self.now.pending) }
    {
        let (to, _) = self.pending.front()?;
        Some(NodeNo(*to))
    }

    /// What the node did.
    pub fn log(&self) -> &Log
        ensures log { result.now.entries ≡ self.now.log }
        ensures stands { IsCell self.now }
    {
        &self.log
    }

    /// The log alone.
    pub fn into_log(self) -> Log
        ensures { result.entries ≡ self.log }
    {
        let NodeCell {
            node: _,
            log,
            come: _,
            senders: _,
            pending: _,
            sent: _,
            dids: _,
        } = self;
        log
    }

    /// The node, its log, and what each event of the log did.
    pub fn split(self) -> CellParts
        ensures parts { CellIsSplit self result }
        ensures stands { IsCell self }
    {
        let NodeCell {
            node,
            log,
            come: _,
            senders: _,
            pending: _,
            sent: _,
            dids,
        } = self;
        CellParts {
            node,
            log,
            dids: dids.into_list(),
        }
    }

    /// The node, by its readers: its number, parameters, clock, contexts and all else.
    pub fn node(&self) -> &Node
        ensures node { result.now ≡ self.now.node }
        ensures stands { IsCell self.now }
    {
        &self.node
    }

    /// The node's number.
    pub fn number(&self) -> NodeNo
        ensures number { result.0 ≡ self.now.node.number }
        ensures exists { IsNode self.now.node }
    {
        self.node.number()
    }

    /// A context of the node has trapped.
    pub fn has_trapped(&self) -> bool
        ensures { result ≡ list_any (λ slot. statuses.has_trapped slot.status) self.now.node.state.slots }
    {
        for slot in 0..self.node.count() {
            if matches!(self.node.status(slot), Status::Trapped { .. }) {
                return true;
            }
        }
        false
    }

    // The event that a number picks. Mostly it is the only one, an instruction.
    #[inline(always)]
    fn pick(&self, number: u32) -> Option<Event>
        ensures { result ≡ picked_event self.now number }
    {
        let row = self.row();
        let count = count_of(&row);
        if count == 0 {
            return None;
        }
        if let Some(eviction) = self.asked_eviction(number) {
            return Some(eviction);
        }
        let node = self.node.number();
        if count == 1 && row.instr {
            return Some(Event::Instr { node });
        }
        Some(row.nth(node, number % count))
    }

    // No main event may happen, so that the node is spent.
    fn idle(&self) -> Stepped
        requires { next_events self.now ≡ [] }
        ensures idle { result ≡ Stepped.Idle }
        ensures spent { IsSpent self.now.node.parameters self.now.node.state }
    {
        let _number = self.node.number(); // for its clause
        let _last = self.node.last(); // for its clause
        let _limit = self.node.params().limit(); // for its clause
        Stepped::Idle
    }

    // The eviction that a number asks for, where it is made.
    #[inline(always)]
    fn asked_eviction(&self, number: u32) -> Option<Event>
        ensures { result ≡ cond (is_evicted self.now number) (Some (asked_eviction self.now number)) None }
    {
        let params = self.node.params();
        let is_tried = number % 256 < u32::from(params.evict());
        if !is_tried {
            return None;
        }
        let eviction = Event::Evict {
            node: self.node.number(),
            set: (number >> 16) % params.sets(),
        };
        if !self.node.have_halted() && self.may(eviction) {
            Some(eviction)
        } else {
            None
        }
    }

    // The main events that may happen.
    #[inline(always)]
    fn row(&self) -> Row
        ensures in_time { result.in_time ≡ true }
        ensures instr { result.instr ≡ may_happen self.now (instr_at self.now.node.number) }
        ensures handle { result.handle ≡ may_happen self.now (handle_at self.now.node.number) }
        ensures senders { (from : ℕ) → has_node (nodes_of result.senders) from ≡ may_happen self.now (delivery from self.now.node.number) }
    {
        let node = self.node.number();
        Row {
            in_time: true,
            instr: self.may(Event::Instr { node }),
            handle: self.may(Event::Handle { node }),
            senders: self.deliverable(),
        }
    }

    // The nodes from which a delivery may happen. It looks at those alone from which something has come.
    #[inline(always)]
    fn deliverable(&self) -> NodeSet
        ensures { (from : ℕ) → has_node (nodes_of result) from ≡ may_happen self.now (delivery from self.now.node.number) }
    {
        if self.senders.is_empty() {
            return NodeSet::empty();
        }
        let mut found = NodeSet::empty();
        let mut rest = self.senders;
        while let Some(from) = rest.lowest() {
            rest = rest.without(from);
            found = self.looked_at(found, from);
        }
        found
    }

    // The set with or without a sender, as a delivery from it may happen or not.
    fn looked_at(&self, senders: NodeSet, from: NodeNo) -> NodeSet
        requires { from.0 < MOST_NODES }
        ensures { (k : ℕ) → has_node (nodes_of result) k ≡ cond (k == from.0) (may_happen self.now (delivery from.0 self.now.node.number)) (has_node (nodes_of senders) k) }
    {
        let to = self.node.number();
        let mut set = senders;
        set.put(from, self.may(Event::Deliver { from, to }));
        set
    }

    // An event may happen.
    #[inline(always)]
    fn may(&self, event: Event) -> bool
        ensures { result ≡ may_happen self.now event }
    {
        let head = head(&self.come, event);
        self.node.may(event, head)
            && is_in_time(self.node.clock(), head, self.node.params().limit())
    }

    // An event that may happen. All growth comes first.
    #[inline(always)]
    fn happen(&mut self, event: Event) -> Result<Stepped, NoMemory>
        requires may { may_happen self.old event ≡ true }
        requires evicts { self.old.node.parameters.evict ≡ 0 → is_evict event ≡ false }
        ensures { Happens self.old event self.new result }
    {
        let nodes = self.come.len();
        self.log.reserve(nodes as u32)?;
        self.pending.reserve(nodes)?;
        self.dids.reserve(1)?;
        let taken = take(&mut self.come, &mut self.senders, event);
        let did = self.node.local(event, taken.as_ref(), &mut self.sent);
        let _fits = self.sent.free(); // for its clause
        let entry = Entry {
            stamp: self.node.clock(),
            event,
        };
        self.log.push(entry, taken, &self.sent);
        append(&mut self.pending, &self.sent);
        self.dids.push(did);
        Ok(Stepped::Did { entry, did })
    }

    // The same of an event that is no instruction, compiled apart: what an instruction can't do falls out of
    // its way.
    #[inline(never)]
    fn happen_apart(&mut self, event: Event) -> Result<Stepped, NoMemory>
        requires may { may_happen self.old event ≡ true }
        requires evicts { self.old.node.parameters.evict ≡ 0 → is_evict event ≡ false }
        ensures { Happens self.old event self.new result }
    {
        self.happen(event)
    }
}

// The number of a row's events. Nearly always nothing may be delivered, and then no bits are counted.
#[inline(always)]
fn count_of(row: &Row) -> u32
    requires { row.now.in_time ≡ true }
    ensures { result ≡ row_count row.now }
{
    if !row.senders.is_empty() {
        return u32::from(row.count());
    }
    match (row.instr, row.handle) {
        (true, true) => 2,
        (false, false) => 0,
        _ => 1,
    }
}

// The message that an event takes, where it stays: the head of the in list that a delivery names.
#[inline(always)]
fn head(come: &Vec<InList>, event: Event) -> Option<&Msg>
    ensures { option_copied result ≡ taken_by come.now.items event }
{
    match event {
        Event::Deliver { from, .. } => come.get(from.0 as usize)?.head(),
        Event::Instr { .. } | Event::Handle { .. } | Event::Evict { .. } => None,
    }
}

// The message that an event takes, off its in list.
#[inline(always)]
fn take(come: &mut Vec<InList>, senders: &mut NodeSet, event: Event) -> Option<Msg>
    requires { AreSenders come.old.items senders.old }
    ensures message { result ≡ taken_by come.old.items event }
    ensures left { come.new.items ≡ come_taken come.old.items event }
    ensures plain { IfSome result BodyIsPlain }
    ensures senders { AreSenders come.new.items senders.new }
{
    let Event::Deliver { from, .. } = event else {
        return None;
    };
    if from.0 as usize >= come.len() {
        return None;
    }
    let list = &mut come[from.0 as usize];
    let msg = list.pop();
    if list.is_empty() {
        *senders = senders.without(from);
    }
    msg
}

// The stamp of an event that takes this message, at this clock, is within a limit.
#[inline(always)]
fn is_in_time(clock: u32, head: Option<&Msg>, limit: u32) -> bool
    ensures { result ≡ nat_le (stamp_of clock (option_copied head.entry)) limit }
{
    match head {
        Some(msg) => clock.max(msg.stamp) < limit,
        None => clock < limit,
    }
}

// So many empty lists.
fn lists(alloc: Global, count: u16) -> Result<Vec<InList>, NoMemory>
    ensures { IfOk result (λ lists. lists.items ≡ replicate count []) }
{
    let mut lists = Vec::with_capacity(alloc, usize::from(count))?;
    for _ in 0..count {
        lists.push_reserved(InList::empty(alloc));
    }
    Ok(lists)
}
