ghost use Rattle.std.specs.Prelude.{◌≡◌, ◌+◌, ◌*◌, ◌==◌, [], replicate, OnOk, IfOk};
ghost use Rattle.alw_model.specs.Messages.{home_node};
ghost use Rattle.alw_waits.specs.Waits.{waits_start, with_controller, turned, missed, ended_at, ended_below, request_traps, request_ends, ended_of, received, ends_at, with_spent, spent_at, instr_told, told_by};

use crate::misses::{Access, EndedBy, Miss, is_answer, is_request, wait_place};
use crate::places::{at_or, put};
use crate::requests::{Requests, add_at, end_at, has_at};
use crate::totals::{Spent, Total};
use alw_image::Image;
use alw_model::Did;
use alw_msg::{Event, Kind, Msg};
use alw_num::{LineNo, Mode, NoMemory, NodeNo};
use alw_times::{Costs, Span, TimedMoment};
use std::alloc::Global;
use std::marker::Model;

/// What is told of an event that happened, beside what times depend on: the access that its instruction asks for, the
/// message that it took, when that arrived, and when the event started and finished.
#[derive(Clone, Copy, PartialEq, Eq)]
pub struct Waited {
    pub asked: Option<Access>,
    pub taken: Option<Msg>,
    pub arrival: u64,
    pub span: Span,
}

/// What waited so far, and what nodes spent. Contracts see it as the definitions' `WaitsSoFar`.
#[derive(Drop)]
pub struct Waits {
    ends: Vec<Total>,
    accesses: Total,
    queued: Total,
    spent: Vec<Spent>,
    firsts: Vec<Option<u64>>,
    misses: Vec<Option<Miss>>,
    trapped: Vec<Requests>,
}

impl Model for Waits {
    ghost use Rattle.alw_waits.specs.Waits.{WaitsSoFar};

    ghost Value = { WaitsSoFar };

    ghost view = { λ w. record {
      ends = w.ends.items;
      accesses = w.accesses;
      queued = w.queued;
      spent = w.spent.items;
      firsts = w.firsts.items;
      misses = w.misses.items;
      trapped = w.trapped.items;
    } };
}

impl Waits {
    /// Nothing has waited at the beginning.
    pub fn of_start(alloc: Global, image: &Image) -> Result<Waits, NoMemory>
        ensures { IfOk result (λ waits. waits ≡ waits_start image.now) }
    {
        let nodes = usize::from(image.nodes());
        let contexts = nodes * usize::from(image.contexts());
        Ok(Waits {
            ends: vec![in alloc; Total::none(); 12]?,
            accesses: Total::none(),
            queued: Total::none(),
            spent: vec![in alloc; Spent::nothing(); nodes]?,
            firsts: vec![in alloc; None; contexts]?,
            misses: vec![in alloc; None; contexts]?,
            trapped: no_requests(alloc, nodes)?,
        })
    }

    /// Of accesses that have ended, the time from the first miss to the start of the turn.
    pub fn accesses(&self) -> Total
        ensures { result ≡ self.now.accesses }
    {
        self.accesses
    }

    /// Of deliveries, the time from a message's arrival to the start.
    pub fn queued(&self) -> Total
        ensures { result ≡ self.now.queued }
    {
        self.queued
    }

    /// Of misses that have ended so, for a line of this node's memory or of another's, the time from the miss to its
    /// end.
    pub fn ended(&self, is_here: bool, mode: Mode, ended: EndedBy) -> Total
        ensures { result ≡ ends_at self.now is_here mode ended }
    {
        at_or(&self.ends, wait_place(is_here, mode, ended), Total::none())
    }

    /// What each node spent.
    pub fn spent(&self) -> &[Spent]
        ensures { result.now ≡ self.now.spent }
    {
        &self.spent
    }

    /// An event has happened, and is told: what waited and was spent is now that after the event. A number that would
    /// be 2^64 or more meets `NoMemory`.
    pub fn pass(
        &mut self,
        image: &Image,
        costs: &Costs,
        happened: &TimedMoment,
        told: &Waited,
    ) -> Result<(), NoMemory>
        ensures { OnOk result (self.new ≡ told_by image.now costs.now self.old happened.now told.now happened.now.event) }
    {
        let cost = told.span.finish.saturating_sub(told.span.start);
        match happened.event {
            Event::Instr { node } => self.instr(image, costs, node, happened.did, told, cost),
            Event::Handle { node } => {
                let spent = self.spent_at(node);
                self.put_spent(node, spent.with_handler(u64::from(costs.trap), cost)?);
                Ok(())
            }
            Event::Deliver { from, to } => {
                self.queued = self
                    .queued
                    .with(told.span.start.saturating_sub(told.arrival))?;
                self.receive(image, from, to, happened, told)?;
                self.keep_controller(to, cost)
            }
            Event::Evict { node, .. } => self.keep_controller(node, cost),
        }
    }

    // An instruction of a node: a turn, or a miss.
    fn instr(
        &mut self,
        image: &Image,
        costs: &Costs,
        node: NodeNo,
        did: Did,
        told: &Waited,
        cost: u64,
    ) -> Result<(), NoMemory>
        ensures { OnOk result (self.new ≡ instr_told image.now costs.now self.old node.0 did told.now cost) }
    {
        let hit = u64::from(costs.hit);
        let switch = cost.saturating_sub(hit);
        let spent = self.spent_at(node);
        match did {
            Did::Turn { slot, .. } => {
                self.turn(context_place(image, node, slot), told.span.start)?;
                self.put_spent(node, spent.with_turn(hit, switch)?);
            }
            Did::Missed { slot } => {
                self.miss(
                    context_place(image, node, slot),
                    told.span.start,
                    told.asked,
                );
                self.put_spent(node, spent.with_miss(hit, switch)?);
            }
            _ => {}
        }
        Ok(())
    }

    // A turn ends the access of its context, if that has missed.
    fn turn(&mut self, context: usize, start: u64) -> Result<(), NoMemory>
        ensures { OnOk result (self.new ≡ turned self.old context start) }
    {
        if let Some(first) = at_or(&self.firsts, context, None) {
            self.accesses = self.accesses.with(start.saturating_sub(first))?;
            put(&mut self.firsts, context, None);
        }
        Ok(())
    }

    // A miss begins, and with it an access, if none is under way.
    fn miss(&mut self, context: usize, start: u64, asked: Option<Access>)
        ensures { self.new ≡ missed self.old context start asked }
    {
        if let Some(access) = asked {
            let first = at_or(&self.firsts, context, None).unwrap_or(start);
            put(&mut self.firsts, context, Some(first));
            let miss = Miss {
                since: start,
                access,
            };
            put(&mut self.misses, context, Some(miss));
        }
    }

    // A delivery takes a message: a request that traps, or an answer, which ends the misses of the slots that it wakes.
    fn receive(
        &mut self,
        image: &Image,
        from: NodeNo,
        to: NodeNo,
        happened: &TimedMoment,
        told: &Waited,
    ) -> Result<(), NoMemory>
        ensures { OnOk result (self.new ≡ received image.now self.old from.0 to.0 happened.now told.now.span.finish told.now.taken) }
    {
        if let Some(msg) = &told.taken {
            self.request_traps(from, msg, happened.did)?;
            let ended = self.ended_of(to, msg);
            self.end_woken(image, to, &happened.woken, ended, told.span.finish)?;
            self.request_ends(to, msg);
        }
        Ok(())
    }

    // The handler gets a request.
    fn request_traps(&mut self, from: NodeNo, msg: &Msg, did: Did) -> Result<(), NoMemory>
        ensures { OnOk result (self.new ≡ request_traps self.old from.0 msg.now did) }
    {
        if did == Did::Packet && is_request(msg.kind) {
            add_at(&mut self.trapped, usize::from(from.0), msg.line)?;
        }
        Ok(())
    }

    // What an answer ends a miss by.
    fn ended_of(&self, to: NodeNo, msg: &Msg) -> EndedBy
        ensures { result ≡ ended_of self.now to.0 msg.now }
    {
        if msg.kind == Kind::BUSY {
            EndedBy::Refusal
        } else if has_at(&self.trapped, usize::from(to.0), msg.line) {
            EndedBy::Handler
        } else {
            EndedBy::Hardware
        }
    }

    // The misses of the slots of a node that are woken end.
    fn end_woken(
        &mut self,
        image: &Image,
        node: NodeNo,
        woken: &[bool],
        ended: EndedBy,
        finish: u64,
    ) -> Result<(), NoMemory>
        ensures { OnOk result (self.new ≡ ended_below image.now woken.now node.0 ended finish image.now.contexts self.old) }
    {
        for slot in 0..image.contexts() {
            if at_or(woken, usize::from(slot), false) {
                self.end(image, node, slot, ended, finish)?;
            }
        }
        Ok(())
    }

    // The miss of a slot ends.
    fn end(
        &mut self,
        image: &Image,
        node: NodeNo,
        slot: u8,
        ended: EndedBy,
        finish: u64,
    ) -> Result<(), NoMemory>
        ensures { OnOk result (self.new ≡ ended_at image.now self.old node.0 (node.0 * image.now.contexts + slot) ended finish) }
    {
        let context = context_place(image, node, slot);
        if let Some(miss) = at_or(&self.misses, context, None) {
            let is_here = is_home(image, miss.access.line, node);
            let place = wait_place(is_here, miss.access.mode, ended);
            let total = at_or(&self.ends, place, Total::none());
            put(
                &mut self.ends,
                place,
                total.with(finish.saturating_sub(miss.since))?,
            );
            put(&mut self.misses, context, None);
        }
        Ok(())
    }

    // A request is answered.
    fn request_ends(&mut self, to: NodeNo, msg: &Msg)
        ensures { self.new ≡ request_ends self.old to.0 msg.now }
    {
        if is_answer(msg.kind) {
            end_at(&mut self.trapped, usize::from(to.0), msg.line);
        }
    }

    // The controller of a node was kept for so long.
    fn keep_controller(&mut self, node: NodeNo, cost: u64) -> Result<(), NoMemory>
        ensures { OnOk result (self.new ≡ with_spent self.old node.0 (with_controller (spent_at self.old node.0) cost)) }
    {
        let spent = self.spent_at(node);
        self.put_spent(node, spent.with_controller(cost)?);
        Ok(())
    }

    // What a node spent.
    fn spent_at(&self, node: NodeNo) -> Spent
        ensures { result ≡ spent_at self.now node.0 }
    {
        at_or(&self.spent, usize::from(node.0), Spent::nothing())
    }

    fn put_spent(&mut self, node: NodeNo, spent: Spent)
        ensures { self.new ≡ with_spent self.old node.0 spent }
    {
        put(&mut self.spent, usize::from(node.0), spent);
    }
}

// So many nodes without a request.
fn no_requests(alloc: Global, count: usize) -> Result<Vec<Requests>, NoMemory>
    ensures { IfOk result (λ trapped. trapped.items ≡ replicate count []) }
{
    let mut trapped = Vec::with_capacity(alloc, count)?;
    for _ in 0..count {
        trapped.push_reserved(Requests::none(alloc));
    }
    Ok(trapped)
}

// A line is of a node's memory.
fn is_home(image: &Image, line: LineNo, node: NodeNo) -> bool
    ensures { result ≡ (home_node image.now line.0 == node.0) }
{
    let _ = image.nodes(); // for its clause
    line.0 / u32::from(image.per_node()) == u32::from(node.0)
}

// The number of a slot's context.
fn context_place(image: &Image, node: NodeNo, slot: u8) -> usize
    ensures { result ≡ node.0 * image.now.contexts + slot }
{
    usize::from(node.0) * usize::from(image.contexts()) + usize::from(slot)
}
