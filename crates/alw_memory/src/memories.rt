ghost use Rattle.std.specs.Prelude.{◌≡◌, ◌<◌, ◌≤◌, ◌*◌, ◌/◌, ◌%◌, IfOk, IsTrue, false, not, length, slice_get};
ghost use Rattle.alw_msg.specs.Kinds.{to_memory};
ghost use Rattle.alw_msg.specs.Contents.{content};
ghost use Rattle.alw_msg.specs.Lists.{is_nonempty};
ghost use Rattle.alw_image.specs.Images.{node_count, line_count};
ghost use Rattle.alw_model.specs.LimitLess.{is_in_progress};
ghost use Rattle.alw_model.specs.MemorySteps.{IsMemoryStep, home_at, takes, handle_front};
ghost use Rattle.alw_model.specs.NodeStates.{node_start, memory_of};
ghost use Rattle.alw_memory.specs.Lines.{has_trapped, line_start, lines_start};
ghost use Rattle.alw_memory.specs.Views.{IsViewOf};
ghost use Rattle.alw_memory.specs.Memories.{IsMemory, SendsAreBegun};

use crate::views::HomeView;
use alw_home::{Acted, deliver};
use alw_image::{Image, Params};
use alw_model::Did;
use alw_msg::{Msg, Sends};
use alw_num::{LineNo, Meta, NoMemory, NodeNo};
use alw_trap::handle;
use dir_hw::HomeEntry;
use dir_soft::SoftDir;
use std::alloc::Global;
use std::collections::VecDeque;
use std::marker::Model;

/// A home line of a node: its entry, and whether the image lists it as Trap-Always.
#[derive(Drop)]
pub struct HomeLine {
    pub entry: HomeEntry,
    pub always: bool,
}

/// The memory side of a node (ASPLOS 1991, section 4): the entries of its home lines, the software
/// table, and the packets that wait for the handler.
#[derive(Drop)]
pub struct Memory {
    number: NodeNo,
    nodes: u32,
    per_node: u16,
    first: u32,
    pointers: u16,
    homes: Vec<HomeLine>,
    soft: SoftDir,
    packets: VecDeque<Msg>,
}

impl Model for Memory {
    ghost use Rattle.alw_model.specs.Sides.{Memory};

    ghost Value = { Memory };

    ghost use Rattle.alw_memory.specs.Insides.{memory_in, MemoryIsKept};

    ghost view = { memory_in };

    ghost invariant = { MemoryIsKept };
}

impl Memory {
    /// The memory side of a node at the start of an image: each home line Read-Only, without a sharer.
    pub fn start(
        alloc: Global,
        image: &Image,
        params: &Params,
        node: NodeNo,
    ) -> Result<Memory, NoMemory>
        requires { node.0 < node_count image.now }
        ensures { IfOk result (λ m. m ≡ memory_of image.now params.now node.0 (node_start image.now node.0)) }
    {
        let nodes = u32::from(image.nodes());
        let per_node = image.per_node();
        let homes = lines_start(alloc, image, node)?;
        let soft = SoftDir::room(alloc, u32::from(per_node), u32::from(per_node))?;
        let packets = VecDeque::with_capacity(alloc, per_node as usize)?;
        Ok(Memory {
            number: node,
            nodes,
            per_node,
            first: u32::from(node.0) * u32::from(per_node),
            pointers: params.pointers(),
            homes,
            soft,
            packets,
        })
    }

    /// A line of this home isn't in Trans-In-Progress.
    pub fn is_free(&self, line: LineNo) -> bool
        requires home { line.0 / self.now.per_node ≡ self.now.number }
        ensures { result ≡ not (is_in_progress (home_at self.now line.0).meta) }
    {
        let place = self.place(line);
        !is_in_progress(self.homes[place].entry.meta)
    }

    /// The node's number.
    pub fn number(&self) -> NodeNo
        ensures number { result.0 ≡ self.now.number }
        ensures stands { IsMemory self.now }
    {
        self.number
    }

    /// The number of nodes.
    pub fn nodes(&self) -> u32
        ensures { result ≡ self.now.nodes }
    {
        self.nodes
    }

    /// Lines of each node.
    pub fn per_node(&self) -> u16
        ensures { result ≡ self.now.per_node }
    {
        self.per_node
    }

    /// A packet waits for the handler.
    pub fn has_packet(&self) -> bool
        ensures { result ≡ is_nonempty self.now.packets }
    {
        !self.packets.is_empty()
    }

    /// The entry of a line of this home.
    #[inline(always)]
    pub fn home(&self, line: LineNo) -> HomeView
        requires { line.0 / self.now.per_node ≡ self.now.number }
        ensures { IsViewOf result (home_at self.now line.0) }
    {
        let home = &self.homes[self.place(line)];
        HomeView {
            state: home.entry.state,
            meta: home.entry.meta,
            hw: home.entry.pointers(),
            sw: self.soft.set(line),
            acks: home.entry.acks,
            body: home.entry.body,
        }
    }

    /// The packet at a place of the queue, where 0 is the front. None exactly behind its end.
    pub fn packet(&self, i: u32) -> Option<Msg>
        ensures { result ≡ slice_get self.now.packets i }
    {
        self.packets.get(i as usize).copied()
    }

    /// The number of packets: at most one for each home line.
    pub fn packets(&self) -> u32
        ensures count { result ≡ length self.now.packets }
        ensures most { result ≤ 4096 }
    {
        self.packets.len() as u32
    }

    /// A message to memory: it traps, which puts it behind the packets, or hardware acts on it.
    #[inline(always)]
    pub fn deliver(&mut self, msg: &Msg, sent: &mut Sends) -> Did
        requires begun { SendsAreBegun self.old.number self.old.nodes sent.old }
        requires to_memory { IsTrue (to_memory msg.now.kind) }
        requires from { msg.now.src.0 < self.old.nodes }
        requires home { msg.now.line.0 / self.old.per_node ≡ self.old.number }
        requires free { is_in_progress (home_at self.old msg.now.line.0).meta ≡ false }
        ensures { IsMemoryStep self.old self.new sent.old sent.new result (takes sent.old.stamp self.old msg.now (content msg.now)) }
    {
        let place = self.place(msg.line);
        let acted = deliver(&mut self.homes[place].entry, self.pointers, msg, sent);
        if !has_trapped(acted) {
            return Did::Took;
        }
        self.packets.push_back_reserved(*msg);
        Did::Packet
    }

    /// The handler takes the front packet. Where none waits, nothing happens.
    pub fn handle(&mut self, sent: &mut Sends) -> Did
        requires begun { SendsAreBegun self.old.number self.old.nodes sent.old }
        ensures { IsMemoryStep self.old self.new sent.old sent.new result (handle_front sent.old.stamp self.old self.old.packets) }
    {
        let Some(packet) = self.packets.pop_front() else {
            return Did::Took;
        };
        let place = (packet.line.0 - self.first) as usize;
        let home = &mut self.homes[place];
        let state = home.entry.state;
        handle(&mut home.entry, &mut self.soft, home.always, &packet, sent);
        Did::Handled {
            kind: packet.kind,
            state,
        }
    }

    // The place of a line among those of this home.
    #[inline(always)]
    fn place(&self, line: LineNo) -> usize
        requires { line.0 / self.now.per_node ≡ self.now.number }
        ensures place { result ≡ line.0 % self.now.per_node }
        ensures within { result < self.now.per_node }
    {
        (line.0 - self.first) as usize
    }
}

// A meta state is Trans-In-Progress.
fn is_in_progress(meta: Meta) -> bool
    ensures { result ≡ is_in_progress meta }
{
    matches!(meta, Meta::Progress)
}

// The home lines of a node at the start.
fn lines_start(alloc: Global, image: &Image, node: NodeNo) -> Result<Vec<HomeLine>, NoMemory>
    requires { node.0 < node_count image.now }
    ensures { IfOk result (λ v. v.items ≡ lines_start image.now node.0) }
{
    let _allowed = image.code(); // for its clause
    let count = u32::from(image.per_node());
    let first = u32::from(node.0) * count;
    let mut homes = Vec::with_capacity(alloc, count as usize)?;
    for k in 0..count {
        homes.push(line_start(image, LineNo(first + k)))?;
    }
    Ok(homes)
}

// A home line at the start.
fn line_start(image: &Image, line: LineNo) -> HomeLine
    requires { line.0 < line_count image.now }
    ensures { result ≡ line_start image.now line.0 }
{
    let always = image.always(line);
    HomeLine {
        entry: HomeEntry::start(image.body(line), always),
        always,
    }
}

// A delivery has trapped.
fn has_trapped(acted: Acted) -> bool
    ensures { result ≡ has_trapped acted }
{
    matches!(acted, Acted::Trapped)
}
