ghost use Rattle.std.specs.Prelude.{◌≡◌, ◌<◌, ◌≤◌, ◌%◌, ◌+◌, ◌^◌, not, length, slice_get};
ghost use Rattle.std.specs.Option.{option_map};
ghost use Rattle.alw_num.specs.Lanes.{lane_of};
ghost use Rattle.alw_num.specs.Maps.{value_at};
ghost use Rattle.alw_num.specs.declared.addresses.Width.TheVariants.{Word};
ghost use Rattle.alw_image.specs.Images.{node_count, line_count, context_count};
ghost use Rattle.alw_ctx.specs.Residents.{number_of};
ghost use Rattle.alw_model.specs.Messages.{home_node};
ghost use Rattle.alw_model.specs.Machine.{is_settled, link_at};
ghost use Rattle.alw_model.specs.Contexts.{all_halted, running};
ghost use Rattle.alw_model.specs.Lines.{entry_of, current_value};
ghost use Rattle.alw_model.specs.Counts.{count_holds};
ghost use Rattle.alw_model.specs.Flat.{context_at, line_at, AreReady, flat_prints};
ghost use Rattle.alw_model.specs.Runs.{flat_status, prints_of};
ghost use Rattle.alw_proc.specs.Openings.{opener_of};
ghost use Rattle.alw_proc.specs.Processors.{mode_of, cached_of};
ghost use Rattle.alw_memory.specs.Views.{IsViewOf};
ghost use Rattle.alw_mesh.specs.Histories.{state_of, last_sends, IsRun};
ghost use Rattle.alw_mesh.specs.Readings.{node_in, slot_of, turns_in, counts_in, flat_in, line_of, word_in, IsSharedWord};

use crate::machines::Machine;
use alw_image::{Image, Params};
use alw_links::Link;
use alw_model::Counts;
use alw_msg::{Journal, Msg, Sends, Status};
use alw_node::HomeView;
use alw_num::{LINE_BYTES, Line, LineNo, MOST_LINES, Mode, NodeNo, SHARED_BASE, Width, lane};
use sparc_table::Regs;

impl Machine {
    /// The image that the machine was started from.
    pub fn image(&self) -> &Image
        ensures { result.now ≡ self.now.image }
    {
        self.mesh.image()
    }

    /// The parameters that the machine was started with.
    pub fn params(&self) -> &Params
        ensures { result.now ≡ self.now.parameters }
    {
        self.mesh.params()
    }

    /// The number of nodes, 1 to `MOST_NODES`.
    pub fn nodes(&self) -> u16
        ensures nodes { result ≡ node_count self.now.image }
        ensures some { 1 ≤ result }
    {
        self.mesh.count()
    }

    /// The number of lines of shared data, at most 2^20.
    pub fn lines(&self) -> u32
        ensures lines { result ≡ line_count self.now.image }
        ensures most { result ≤ MOST_LINES }
    {
        self.mesh.lines()
    }

    /// The journal: the events that happened, in order, each with its stamp.
    pub fn journal(&self) -> &Journal
        ensures journal { result.now ≡ self.now.journal }
        ensures run { IsRun self.now }
    {
        &self.journal
    }

    /// What the last event sent, and nothing where none has happened.
    pub fn last_sent(&self) -> &Sends
        ensures { result.now.messages ≡ last_sends self.now }
    {
        &self.sent
    }

    /// The numbers of the contexts that took turns, in order. Each is Ready at its turn on the flat machine.
    pub fn turns(&self) -> &[u32]
        ensures turns { result.now ≡ turns_in self.now }
        ensures flat { AreReady self.now.image result.now }
        ensures few { length result.now < 2 ^ 32 }
    {
        self.tally.turns()
    }

    /// The words that were printed, in order, each with the number of the context that printed it: those
    /// that the turns print on the flat machine.
    pub fn prints(&self) -> &[(u32, u32)]
        ensures prints { result.now ≡ prints_of self.now.image self.now.parameters self.now.journal }
        ensures flat { result.now ≡ flat_prints self.now.image (turns_in self.now) }
        ensures few { length result.now < 2 ^ 32 }
    {
        self.tally.prints()
    }

    /// The counts of all events so far.
    pub fn counts(&self) -> Counts
        ensures { result ≡ counts_in self.now }
    {
        self.tally.counts()
    }

    /// All links and all packet queues are empty.
    pub fn settled(&self) -> bool
        ensures { result ≡ is_settled (state_of self.now) }
    {
        self.mesh.is_settled()
    }

    /// What a context does. On the flat machine it does the same, where one that waits counts as Ready.
    pub fn status(&self, context: u32) -> Status
        requires { context < context_count self.now.image }
        ensures status { result ≡ (slot_of self.now context).status }
        ensures flat { flat_status result ≡ (context_at (flat_in self.now) context).status }
    {
        let (node, slot) = self.mesh.slot(context);
        node.status(slot)
    }

    /// The registers of a context, which are those on the flat machine.
    pub fn regs(&self, context: u32) -> Regs
        requires { context < context_count self.now.image }
        ensures regs { result ≡ (slot_of self.now context).regs }
        ensures flat { result ≡ (context_at (flat_in self.now) context).regs }
    {
        let (node, slot) = self.mesh.slot(context);
        node.regs(slot)
    }

    /// A context of a node hasn't halted.
    pub fn is_live(&self, n: NodeNo) -> bool
        requires { n.0 < node_count self.now.image }
        ensures { result ≡ not (all_halted (node_in self.now n.0).slots) }
    {
        !self.mesh.node(n).have_halted()
    }

    /// The line that a context has a hold on. None exactly where it has none.
    pub fn held(&self, context: u32) -> Option<LineNo>
        requires { context < context_count self.now.image }
        ensures { option_map number_of result ≡ (slot_of self.now context).hold }
    {
        let (node, slot) = self.mesh.slot(context);
        node.held(slot)
    }

    /// The current value of a line, which is the one on the flat machine.
    pub fn value(&self, line: LineNo) -> Line
        requires { line.0 < line_count self.now.image }
        ensures value { result ≡ current_value self.now.image self.now.parameters (state_of self.now) line.0 }
        ensures flat { result ≡ line_at (flat_in self.now) line.0 }
    {
        self.mesh.value(line)
    }

    /// The word at an address of shared data that is a multiple of 4: the current value's, which is the
    /// word on the flat machine. A Read-Only line costs one look, another a look at each node and at what is on its way.
    pub fn word(&self, addr: u32) -> u32
        requires { IsSharedWord self.now addr }
        ensures word { result ≡ word_in self.now addr }
        ensures flat { result ≡ lane_of (line_at (flat_in self.now) (line_of addr)) (addr % LINE_BYTES) Word }
    {
        let value = self.value(LineNo((addr - SHARED_BASE) / LINE_BYTES));
        lane(&value, addr % LINE_BYTES, Width::Word)
    }

    /// The node of a line's home.
    pub fn home_of(&self, line: LineNo) -> NodeNo
        requires { line.0 < line_count self.now.image }
        ensures home { result.0 ≡ home_node self.now.image line.0 }
        ensures exists { result.0 < node_count self.now.image }
    {
        self.mesh.home_of(line)
    }

    /// A line's entry at its home.
    #[inline(always)]
    pub fn home(&self, line: LineNo) -> HomeView
        requires { line.0 < line_count self.now.image }
        ensures { IsViewOf result (entry_of self.now.image (state_of self.now) line.0) }
    {
        self.mesh.home(line)
    }

    /// A node's clock: the stamp of its last event, and 0 before the first.
    pub fn clock(&self, n: NodeNo) -> u32
        requires { n.0 < node_count self.now.image }
        ensures { result ≡ (node_in self.now n.0).clock }
    {
        self.mesh.node(n).clock()
    }

    /// The slot of a node that runs next. None exactly where no slot is Ready.
    pub fn current(&self, n: NodeNo) -> Option<u8>
        requires { n.0 < node_count self.now.image }
        ensures { result ≡ running (node_in self.now n.0).slots (node_in self.now n.0).current }
    {
        self.mesh.node(n).current()
    }

    /// A node's current slot: the one that ran last.
    pub fn last(&self, n: NodeNo) -> u8
        requires { n.0 < node_count self.now.image }
        ensures { result ≡ (node_in self.now n.0).current }
    {
        self.mesh.node(n).last()
    }

    /// The mode of a node's transaction on a line. None exactly where it has none.
    pub fn pending(&self, n: NodeNo, line: LineNo) -> Option<Mode>
        requires node { n.0 < node_count self.now.image }
        requires line { line.0 < line_count self.now.image }
        ensures { result ≡ option_map mode_of (value_at (node_in self.now n.0).transactions line.0) }
    {
        self.mesh.node(n).pending(line)
    }

    /// The slot that opened a node's transaction on a line. None exactly where it has none.
    pub fn opener(&self, n: NodeNo, line: LineNo) -> Option<u8>
        requires node { n.0 < node_count self.now.image }
        requires line { line.0 < line_count self.now.image }
        ensures { result ≡ option_map opener_of (value_at (node_in self.now n.0).transactions line.0) }
    {
        self.mesh.node(n).opener(line)
    }

    /// The line, mode and bytes of the copy in a set of a node's cache. None exactly where there is none.
    pub fn cached(&self, n: NodeNo, set: u32) -> Option<(LineNo, Mode, Line)>
        requires node { n.0 < node_count self.now.image }
        requires set { set < self.now.parameters.sets }
        ensures { result ≡ option_map cached_of (value_at (node_in self.now n.0).cache set) }
    {
        self.mesh.node(n).cached(set)
    }

    /// The packet at a place of a node's queue, where 0 is the front. None exactly behind its end.
    pub fn packet(&self, n: NodeNo, i: u32) -> Option<Msg>
        requires { n.0 < node_count self.now.image }
        ensures { result ≡ slice_get (node_in self.now n.0).packets i }
    {
        self.mesh.node(n).packet(i)
    }

    /// The number of packets in a node's queue: at most one for each home line.
    pub fn packets(&self, n: NodeNo) -> u32
        requires { n.0 < node_count self.now.image }
        ensures count { result ≡ length (node_in self.now n.0).packets }
        ensures most { result ≤ 4096 }
    {
        self.mesh.node(n).packets()
    }

    /// The messages on the link of two nodes, its head first.
    pub fn link(&self, from: NodeNo, to: NodeNo) -> Link<'_>
        requires from { from.0 < node_count self.now.image }
        requires to { to.0 < node_count self.now.image }
        ensures { result ≡ link_at self.now.image (state_of self.now) from.0 to.0 }
    {
        self.mesh.link(from, to)
    }

    /// The message at a place of the link of two nodes, where 0 is its head. None exactly behind its end.
    pub fn on_link(&self, from: NodeNo, to: NodeNo, i: u32) -> Option<Msg>
        requires from { from.0 < node_count self.now.image }
        requires to { to.0 < node_count self.now.image }
        ensures { result ≡ slice_get (link_at self.now.image (state_of self.now) from.0 to.0) i }
    {
        self.mesh.on_link(from, to, i)
    }

    /// The number of slots with a hold. The replies delivered are the turns that ended a hold, and these.
    pub fn holds(&self) -> u32
        ensures count { result ≡ count_holds (state_of self.now) }
        ensures replies { (counts_in self.now).replies ≡ (counts_in self.now).used + result }
    {
        let counts = self.tally.counts();
        (counts.replies - counts.used) as u32
    }
}
