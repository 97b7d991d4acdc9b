ghost use Rattle.std.specs.Prelude.{◌≡◌, ◌≤◌, ◌<◌, true, is_some, length, slice_get, option_copied, IfOk};
ghost use Rattle.std.specs.Option.{option_map};
ghost use Rattle.std.specs.Arc.{arc_value};
ghost use Rattle.alw_num.specs.Maps.{value_at};
ghost use Rattle.alw_num.specs.Weights.{digit, weigh};
ghost use Rattle.alw_image.specs.Images.{node_count};
ghost use Rattle.alw_model.specs.Contexts.{running, slot_at, all_halted};
ghost use Rattle.alw_msg.specs.Contents.{content};
ghost use Rattle.alw_msg.specs.Lists.{is_nonempty};
ghost use Rattle.alw_model.specs.Messages.{home_node, is_fit};
ghost use Rattle.alw_model.specs.NodeStates.{home_at, is_enabled_at, may_reach, stamp_of};
ghost use Rattle.alw_model.specs.NodeSteps.{node_step};
ghost use Rattle.alw_ctx.specs.Residents.{number_of};
ghost use Rattle.alw_proc.specs.Openings.{opener_of};
ghost use Rattle.alw_proc.specs.Processors.{mode_of, cached_of};
ghost use Rattle.alw_memory.specs.Views.{IsViewOf};
ghost use Rattle.alw_node.specs.Nodes.{whole_start, may_take_from, IsNodeStep, FitsStamp, MessageIsGiven, IsNode};

use crate::shares::Share;
use alw_image::{Image, Params};
use alw_memory::{HomeView, Memory};
use alw_model::Did;
use alw_msg::{Event, Msg, Sends, Status};
use alw_num::{Line, LineNo, Mode, NoMemory, NodeNo};
use alw_proc::Proc;
use sparc_exec::Program;
use sparc_table::Regs;
use std::alloc::Global;
use std::marker::Model;
use std::sync::Arc;

/// A node of the machine: its share of the image, its contexts and cache, its home lines, and its
/// clock (Lamport 1978). What each turn reads stands together: the program at the end of the share, the
/// clock, and the current slot at the front of the processor side.
#[derive(Drop)]
pub struct Node {
    share: Share,
    clock: u32,
    proc: Proc,
    memory: Memory,
    params: Params,
}

impl Model for Node {
    ghost use Rattle.alw_node.specs.Nodes.{Whole, whole_of, SidesAreOfOneNode};

    ghost Value = { Whole };

    ghost view = { λ n. whole_of n.share n.params n.proc n.memory n.clock };

    ghost invariant = { λ n. SidesAreOfOneNode n.share n.params n.proc n.memory };
}

impl Node {
    /// A node at the start of an image. It takes all memory that the node ever needs, and keeps a
    /// program of its own.
    pub fn start(
        alloc: Global,
        image: &Image,
        params: &Params,
        node: NodeNo,
    ) -> Result<Node, NoMemory>
        requires { node.0 < node_count image.now }
        ensures { IfOk result (λ n. n ≡ whole_start image.now params.now node.0) }
    {
        let program = Arc::new(alloc, Program::of(image.code())?)?;
        Node::start_shared(alloc, image, params, node, &program)
    }

    /// A node at the start of an image, which shares the program with whoever else has it. It takes
    /// all other memory that the node ever needs.
    pub fn start_shared(
        alloc: Global,
        image: &Image,
        params: &Params,
        node: NodeNo,
        program: &Arc<Program, Global>,
    ) -> Result<Node, NoMemory>
        requires node { node.0 < node_count image.now }
        requires program { arc_value program.now ≡ image.now.code }
        ensures { IfOk result (λ n. n ≡ whole_start image.now params.now node.0) }
    {
        Ok(Node {
            share: Share::of(alloc, image, node, program)?,
            params: *params,
            proc: Proc::start(alloc, image, params, node)?,
            memory: Memory::start(alloc, image, params, node)?,
            clock: 0,
        })
    }

    /// An event is enabled at this node, the limit aside: it is of this node, whose clock isn't the
    /// greatest, and nothing keeps it back. `head` is the message at the head of the link that a
    /// delivery names; other events don't look at it.
    #[inline(always)]
    pub fn may(&self, event: Event, head: Option<&Msg>) -> bool
        ensures { result ≡ is_enabled_at self.now.parts self.now.parameters self.now.number self.now.state event (option_copied head.entry) }
    {
        if event.node() != self.proc.number() || self.clock == u32::MAX {
            return false;
        }
        match event {
            Event::Instr { .. } => self.proc.is_ready(),
            Event::Handle { .. } => self.memory.has_packet(),
            Event::Deliver { from, .. } => match head {
                Some(msg) => self.may_take_from(from, msg),
                None => false,
            },
            Event::Evict { set, .. } => set < self.proc.sets() && self.proc.may_evict(set),
        }
    }

    /// One event of the node, which is enabled, with the message that it takes: none, but for a
    /// delivery. What is sent is in `sent`, which has room for a message to each node.
    #[inline(always)]
    pub fn local(&mut self, event: Event, taken: Option<&Msg>, sent: &mut Sends) -> Did
        requires enabled { is_enabled_at self.old.parts self.old.parameters self.old.number self.old.state event (option_copied taken) ≡ true }
        requires taken { MessageIsGiven event (option_copied taken) }
        requires room { node_count self.old.parts ≤ sent.old.room }
        ensures { IsNodeStep self.old self.new sent.old sent.new result (node_step self.old.parts self.old.parameters self.old.number self.old.state event (option_copied taken.entry)) }
    {
        let stamp = next_stamp(self.clock, taken);
        sent.begin(self.proc.number(), stamp);
        self.clock = stamp;
        match event {
            Event::Instr { .. } => self.proc.instr(self.share.program(), sent),
            Event::Handle { .. } => self.memory.handle(sent),
            Event::Evict { set, .. } => self.proc.evict(set, sent),
            Event::Deliver { .. } => {
                let Some(msg) = taken else {
                    return Did::Took;
                };
                if msg.kind.is_to_memory() {
                    return self.memory.deliver(msg, sent);
                }
                self.proc.cache_msg(msg, sent);
                Did::Took
            }
        }
    }

    /// Nothing keeps back a message that is fit for its link.
    #[inline(always)]
    pub fn may_arrive(&self, from: NodeNo, msg: &Msg) -> bool
        requires fit { is_fit self.now.parts from.0 self.now.number msg.now ≡ true }
        ensures { result ≡ may_reach self.now.parts self.now.parameters self.now.state msg.now.line.0 (content msg.now) }
    {
        if msg.kind.is_to_memory() {
            self.memory.is_free(msg.line)
        } else {
            self.proc.may_take(msg)
        }
    }

    /// The node's number.
    pub fn number(&self) -> NodeNo
        ensures number { result.0 ≡ self.now.number }
        ensures stands { IsNode self.now }
    {
        let _stands = self.memory.number(); // for its clause
        self.proc.number()
    }

    /// The node's share of the image: its sizes and code, the starts of the node's contexts, and the
    /// first bytes and Trap-Always marks of its home lines.
    pub fn share(&self) -> &Share
        ensures { result.now ≡ self.now.parts }
    {
        &self.share
    }

    /// The parameters of the run.
    pub fn params(&self) -> &Params
        ensures { result.now ≡ self.now.parameters }
    {
        &self.params
    }

    /// The clock: the stamp of the node's last event, and 0 before the first.
    pub fn clock(&self) -> u32
        ensures { result ≡ self.now.state.clock }
    {
        self.clock
    }

    /// The slot that runs. None exactly where no slot is Ready.
    pub fn current(&self) -> Option<u8>
        ensures { result ≡ running self.now.state.slots self.now.state.current }
    {
        self.proc.current()
    }

    /// The current slot: the one that ran last.
    pub fn last(&self) -> u8
        ensures slot { result ≡ self.now.state.current }
        ensures within { result < length self.now.state.slots }
    {
        self.proc.last()
    }

    /// The number of slots, which is the number of contexts that the image gives each node.
    pub fn count(&self) -> u8
        ensures count { result ≡ length self.now.state.slots }
        ensures contexts { result ≡ self.now.parts.contexts }
        ensures most { result ≤ 4 }
    {
        self.proc.count()
    }

    /// What the context of a slot does.
    pub fn status(&self, slot: u8) -> Status
        requires { slot < length self.now.state.slots }
        ensures { result ≡ (slot_at self.now.state.slots slot).status }
    {
        self.proc.status(slot)
    }

    /// The registers of a slot.
    pub fn regs(&self, slot: u8) -> Regs
        requires { slot < length self.now.state.slots }
        ensures { result ≡ (slot_at self.now.state.slots slot).regs }
    {
        self.proc.regs(slot)
    }

    /// The line that a slot has a hold on. None exactly where it has none.
    pub fn held(&self, slot: u8) -> Option<LineNo>
        requires { slot < length self.now.state.slots }
        ensures { option_map number_of result ≡ (slot_at self.now.state.slots slot).hold }
    {
        self.proc.held(slot)
    }

    /// A context is Ready.
    pub fn is_ready(&self) -> bool
        ensures { result ≡ is_some (running self.now.state.slots self.now.state.current) }
    {
        self.proc.is_ready()
    }

    /// A packet waits for the trap handler.
    pub fn has_packet(&self) -> bool
        ensures { result ≡ is_nonempty self.now.state.packets }
    {
        self.memory.has_packet()
    }

    /// All contexts have halted.
    pub fn have_halted(&self) -> bool
        ensures { result ≡ all_halted self.now.state.slots }
    {
        self.proc.have_halted()
    }

    /// The number of slots with a hold.
    pub fn holds(&self) -> u32
        ensures { result ≡ weigh (λ slot. digit (is_some slot.hold)) self.now.state.slots }
    {
        self.proc.holds()
    }

    /// The mode of the transaction on a line. None exactly where there is none.
    pub fn pending(&self, line: LineNo) -> Option<Mode>
        ensures { result ≡ option_map mode_of (value_at self.now.state.transactions line.0) }
    {
        self.proc.pending(line)
    }

    /// The slot that opened the transaction on a line. None exactly where there is none.
    pub fn opener(&self, line: LineNo) -> Option<u8>
        ensures { result ≡ option_map opener_of (value_at self.now.state.transactions line.0) }
    {
        self.proc.opener(line)
    }

    /// The line, mode and bytes of the copy that a set holds. None exactly where it holds none.
    pub fn cached(&self, set: u32) -> Option<(LineNo, Mode, Line)>
        requires { set < self.now.parameters.sets }
        ensures { result ≡ option_map cached_of (value_at self.now.state.cache set) }
    {
        self.proc.cached(set)
    }

    /// The entry of a line of which this node is the home.
    #[inline(always)]
    pub fn home(&self, line: LineNo) -> HomeView
        requires { home_node self.now.parts line.0 ≡ self.now.number }
        ensures { IsViewOf result (home_at self.now.parts self.now.state line.0) }
    {
        self.memory.home(line)
    }

    /// The packet at a place of the queue, where 0 is the front. None exactly behind its end.
    pub fn packet(&self, i: u32) -> Option<Msg>
        ensures { result ≡ slice_get self.now.state.packets i }
    {
        self.memory.packet(i)
    }

    /// The number of packets in the queue: at most one for each home line.
    pub fn packets(&self) -> u32
        ensures count { result ≡ length self.now.state.packets }
        ensures most { result ≤ 4096 }
    {
        self.memory.packets()
    }

    // The message at the head of the link from a node can be delivered.
    #[inline(always)]
    fn may_take_from(&self, from: NodeNo, msg: &Msg) -> bool
        ensures { result ≡ may_take_from self.now from.0 msg.now }
    {
        u32::from(from.0) < self.memory.nodes()
            && self.is_fit(from, msg)
            && self.may_arrive(from, msg)
    }

    // A message is fit for the link from a node: sent by that node, about a line that exists, with a
    // stamp below the greatest, to or from the line's home.
    #[inline(always)]
    fn is_fit(&self, from: NodeNo, msg: &Msg) -> bool
        ensures { result ≡ is_fit self.now.parts from.0 self.now.number msg.now }
    {
        let here = self.memory.number();
        let home = msg.line.0 / u32::from(self.memory.per_node());
        let end = if msg.kind.is_to_memory() { here } else { from };
        msg.src == from
            && msg.line.0 < self.proc.lines()
            && msg.stamp < u32::MAX
            && home == u32::from(end.0)
    }
}

// The stamp of an event that takes this message, at a clock that isn't the greatest.
#[inline(always)]
fn next_stamp(clock: u32, taken: Option<&Msg>) -> u32
    requires clock { clock < 4294967295 }
    requires taken { FitsStamp (option_copied taken) }
    ensures { result ≡ stamp_of clock (option_copied taken.entry) }
{
    match taken {
        Some(msg) => clock.max(msg.stamp) + 1,
        None => clock + 1,
    }
}
