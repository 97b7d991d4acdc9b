ghost use Rattle.std.specs.Prelude.{◌≡◌, ◌<◌, ◌≤◌, ◌^◌, ℕ, nat_lt, ◌&&◌, slice_get, max, option_copied, IfOk, OnOk, OnErr, IsTrue};
ghost use Rattle.alw_num.specs.NodeSets.{has_node, nodes_of};
ghost use Rattle.alw_msg.specs.Events.{node_of};
ghost use Rattle.alw_msg.specs.Lists.{is_nonempty, front};
ghost use Rattle.alw_image.specs.Images.{node_count, line_count, context_count};
ghost use Rattle.alw_model.specs.Messages.{home_node};
ghost use Rattle.alw_model.specs.Machine.{node_at, has_halted, taken_by, stamp_at, is_enabled, is_settled, any_trapped, link_at};
ghost use Rattle.alw_model.specs.Lines.{entry_of};
ghost use Rattle.alw_memory.specs.Views.{IsViewOf};
ghost use Rattle.alw_ready.specs.Fits.{may_happen};
ghost use Rattle.alw_tally.specs.Remaining.{remains_of, AreFew};
ghost use Rattle.law_order.specs.Aims.{IsAimed};
ghost use Rattle.alw_mesh.specs.Grids.{grid_start, IsNodeAt, IsSlotOf, Happens};
ghost use Rattle.alw_mesh.specs.Keeping.{machine_of, AreNodes};
ghost use Rattle.alw_mesh.specs.Joins.{IsGridOf};

use crate::joining::{nodes_of, remains_at};
use crate::stepping::{
    Happening, act, drop_head, head, is_in_time, nodes_start, quiet_slot, quiet_turn, trap_pc,
    uses_hold,
};
use alw_image::{Image, Params};
use alw_links::{Link, Links};
use alw_msg::{Entry, Event, Msg, Sends};
use alw_node::{HomeView, Node, Nodes, Program};
use alw_num::{LineNo, MOST_LINES, NoMemory, NodeNo, NodeSet, home_of};
use alw_tally::{Moment, Remains};
use std::alloc::Global;
use std::marker::Model;
use std::sync::Arc;

/// All nodes of an image, and the links between them. Contracts see the machine's state.
#[derive(Drop)]
pub struct Mesh {
    image: Image,
    params: Params,
    nodes: Vec<Node>,
    links: Links,
    remains: Remains,
}

impl Model for Mesh {
    ghost use Rattle.alw_mesh.specs.Grids.{Grid};
    ghost use Rattle.alw_mesh.specs.Keeping.{machine_of, IsGrid};

    ghost Value = { Grid };

    ghost view = { λ m. record { image = m.image; parameters = m.params; machine = machine_of m.nodes.items m.links.links; room = m.links.room } };

    ghost invariant = { λ m. IsGrid m.image m.params m.nodes.items m.links m.remains };
}

impl Mesh {
    /// The nodes and links at the start of an image, without room for a message. All nodes share one
    /// program.
    pub fn start(alloc: Global, image: &Image, params: &Params) -> Result<Mesh, NoMemory>
        ensures { IfOk result (λ mesh. mesh ≡ grid_start image.now params.now) }
    {
        let count = image.nodes();
        let program = Arc::new(alloc, Program::of(image.code())?)?;
        Ok(Mesh {
            image: image.copy()?,
            params: *params,
            nodes: nodes_start(alloc, image, params, &program, count)?,
            links: Links::start(alloc, u32::from(count))?,
            remains: Remains::start(image),
        })
    }

    /// The nodes of a machine that has run, with its links and what is on them.
    pub fn joined(
        alloc: Global,
        image: &Image,
        params: &Params,
        nodes: Nodes,
        links: Links,
    ) -> Result<Mesh, NoMemory>
        requires nodes { AreNodes image.now params.now nodes }
        requires counted { links.nodes ≡ node_count image.now }
        requires aimed { IsAimed image.now (machine_of nodes links.links) }
        ensures { IfOk result (λ mesh. IsGridOf image.now params.now (machine_of nodes links.links) mesh) }
    {
        let _allowed = image.nodes(); // for its clause
        let nodes = nodes_of(alloc, nodes)?;
        let remains = remains_at(&nodes);
        Ok(Mesh {
            image: image.copy()?,
            params: *params,
            nodes,
            links,
            remains,
        })
    }

    /// The image that it was started from.
    pub fn image(&self) -> &Image
        ensures { result.now ≡ self.now.image }
    {
        &self.image
    }

    /// The parameters that it was started with.
    pub fn params(&self) -> &Params
        ensures { result.now ≡ self.now.parameters }
    {
        &self.params
    }

    /// The node with a number.
    #[inline(always)]
    pub fn node(&self, n: NodeNo) -> &Node
        requires { n.0 < node_count self.now.image }
        ensures { IsNodeAt self.now n.0 result.now }
    {
        &self.nodes[usize::from(n.0)]
    }

    /// There is a node with this number.
    #[inline(always)]
    pub fn has_node(&self, n: NodeNo) -> bool
        ensures { result ≡ nat_lt n.0 (node_count self.now.image) }
    {
        usize::from(n.0) < self.nodes.len()
    }

    /// The number of nodes.
    pub fn count(&self) -> u16
        ensures { result ≡ node_count self.now.image }
    {
        self.image.nodes()
    }

    /// The number of lines of shared data.
    pub fn lines(&self) -> u32
        ensures lines { result ≡ line_count self.now.image }
        ensures most { result ≤ MOST_LINES }
    {
        self.image.lines()
    }

    /// The messages on the link of two nodes, its head first.
    pub fn link(&self, from: NodeNo, to: NodeNo) -> Link<'_>
        requires from { from.0 < node_count self.now.image }
        requires to { to.0 < node_count self.now.image }
        ensures { result ≡ link_at self.now.image self.now.machine from.0 to.0 }
    {
        self.links.link(from, to)
    }

    /// The message that an event takes: the head of its link for a delivery, and none else.
    #[inline(always)]
    pub fn head(&self, event: Event) -> Option<&Msg>
        requires { node_of event < node_count self.now.image }
        ensures { option_copied result ≡ taken_by self.now.image self.now.machine event }
    {
        let Event::Deliver { from, to } = event else {
            return None;
        };
        if self.has_node(from) {
            self.links.head(from, to)
        } else {
            None
        }
    }

    /// The message at the head of the link of two nodes.
    #[inline(always)]
    pub fn head_between(&self, from: NodeNo, to: NodeNo) -> Option<&Msg>
        requires from { from.0 < node_count self.now.image }
        requires to { to.0 < node_count self.now.image }
        ensures { option_copied result ≡ front (link_at self.now.image self.now.machine from.0 to.0) }
    {
        self.links.head(from, to)
    }

    /// Every context has halted.
    pub fn has_halted(&self) -> bool
        ensures { result ≡ has_halted self.now.machine }
    {
        self.remains.has_halted()
    }

    /// An event is enabled, the limit aside. The event may be of any nodes.
    pub fn is_enabled(&self, event: Event) -> bool
        ensures { result ≡ is_enabled self.now.image self.now.parameters self.now.machine event }
    {
        self.has_node(event.node()) && self.node(event.node()).may(event, self.head(event))
    }

    /// The nodes that have a message on their link to this one.
    pub fn senders_to(&self, to: NodeNo) -> NodeSet
        requires { to.0 < node_count self.now.image }
        ensures { (from : ℕ) → has_node (nodes_of result) from ≡
            (nat_lt from (node_count self.now.image) && is_nonempty (link_at self.now.image self.now.machine from to.0)) }
    {
        self.links.senders(to)
    }

    /// An event is enabled and within the limit. The event may be of any nodes.
    #[inline(always)]
    pub fn may_be_next(&self, event: Event) -> bool
        ensures { result ≡ may_happen self.now.image self.now.parameters self.now.machine event }
    {
        if !self.has_node(event.node()) {
            return false;
        }
        let node = self.node(event.node());
        let head = self.head(event);
        node.may(event, head)
            && (is_in_time(node.clock(), head, self.params.limit()) || self.has_halted())
    }

    /// The stamp that an event has.
    #[inline(always)]
    pub fn stamp(&self, event: Event) -> u32
        requires { IsTrue (is_enabled self.now.image self.now.parameters self.now.machine event) }
        ensures { result ≡ stamp_at self.now.image self.now.machine event }
    {
        let clock = self.node(event.node()).clock();
        match self.head(event) {
            Some(msg) => clock.max(msg.stamp) + 1,
            None => clock + 1,
        }
    }

    /// Room for a message to each node.
    pub fn reserve(&mut self) -> Result<(), NoMemory>
        ensures ok { OnOk result (self.new ≡ record self.old { room = max self.old.room (node_count self.old.image) }) }
        ensures err { OnErr result (self.new ≡ self.old) }
    {
        self.links.reserve(self.nodes.len() as u32)
    }

    /// The event of an entry happens. What it sends is in `sent`, and on its way. Behind a quiet turn, which
    /// sends nothing, all but its node stays.
    #[inline(always)]
    pub fn happen(&mut self, entry: Entry, sent: &mut Sends) -> Happening
        requires enabled { IsTrue (is_enabled self.old.image self.old.parameters self.old.machine entry.event) }
        requires links { node_count self.old.image ≤ self.old.room }
        requires sends { sent.old.room ≡ node_count self.old.image }
        requires few { AreFew (remains_of self.old.machine.nodes) }
        ensures { Happens self.old self.new entry sent.new result }
    {
        let event = entry.event;
        let number = event.node();
        let place = usize::from(number.0);
        let head = head(&self.links, event);
        let taken = head.copied();
        let acted = act(&mut self.nodes, place, event, head, sent);
        if let Some(slot) = quiet_slot(event, acted.did, acted.changes_holds) {
            return quiet_turn(entry, slot);
        }
        drop_head(&mut self.links, event);
        self.links.send_all(number, sent);
        self.remains.follow(event, acted.did);
        Happening {
            moment: Moment {
                entry,
                taken,
                did: acted.did,
                quiet: false,
            },
            used: uses_hold(acted.did, acted.changes_holds),
            pc: trap_pc(&self.nodes[place], acted.did),
            changes_holds: acted.changes_holds,
        }
    }

    /// All links and all packet queues are empty.
    pub fn is_settled(&self) -> bool
        ensures { result ≡ is_settled self.now.machine }
    {
        self.links.is_empty() && self.remains.is_handled()
    }

    /// The node and the slot of a context.
    pub fn slot(&self, context: u32) -> (&Node, u8)
        requires { context < context_count self.now.image }
        ensures { IsSlotOf self.now context result.0.now result.1 }
    {
        let node = self.node(NodeNo((context / u32::from(self.image.contexts())) as u16));
        (node, (context % u32::from(node.count())) as u8)
    }

    /// The home of a line.
    pub fn home_of(&self, line: LineNo) -> NodeNo
        requires { line.0 < line_count self.now.image }
        ensures home { result.0 ≡ home_node self.now.image line.0 }
        ensures exists { result.0 < node_count self.now.image }
    {
        home_of(line, u32::from(self.image.per_node()))
    }

    /// A line's entry at its home.
    #[inline(always)]
    pub fn home(&self, line: LineNo) -> HomeView
        requires { line.0 < line_count self.now.image }
        ensures { IsViewOf result (entry_of self.now.image self.now.machine line.0) }
    {
        self.node(self.home_of(line)).home(line)
    }

    /// Message i of the link of two nodes, where the head is message 0. None exactly behind its end.
    pub fn on_link(&self, from: NodeNo, to: NodeNo, i: u32) -> Option<Msg>
        requires from { from.0 < node_count self.now.image }
        requires to { to.0 < node_count self.now.image }
        ensures { result ≡ slice_get (link_at self.now.image self.now.machine from.0 to.0) i }
    {
        self.links.at(from, to, i)
    }

    /// A context has trapped.
    pub fn any_trapped(&self) -> bool
        ensures { result ≡ any_trapped self.now.machine }
    {
        self.remains.any_trapped()
    }

    /// Every context has halted, and all links and all packet queues are empty.
    pub fn is_at_rest(&self) -> bool
        ensures { result ≡ (has_halted self.now.machine && is_settled self.now.machine) }
    {
        self.has_halted() && self.is_settled()
    }

    /// The image and the parameters alone.
    pub fn into_parts(self) -> (Image, Params)
        ensures image { result.0 ≡ self.image }
        ensures parameters { result.1 ≡ self.parameters }
    {
        let Mesh {
            image,
            params,
            nodes: _,
            links: _,
            remains: _,
        } = self;
        (image, params)
    }
}
