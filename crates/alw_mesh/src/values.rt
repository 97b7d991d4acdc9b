ghost use Rattle.std.specs.Prelude.{◌≡◌, ◌<◌, ◌≤◌, [], ℕ, length, option_to_list};
ghost use Rattle.std.specs.List.{AllByRecursion};
ghost use Rattle.alw_num.specs.declared.states.State.TheVariants.{RO, RW};
ghost use Rattle.alw_msg.specs.Lists.{front};
ghost use Rattle.alw_image.specs.Images.{node_count, line_count};
ghost use Rattle.alw_model.specs.Lines.{line_of, entry_of, packets_at, current_value, carriers};
ghost use Rattle.alw_memory.specs.Views.{IsViewOf};
ghost use Rattle.alw_mesh.specs.Values.{brought_home, all_brought_home, brought_out, all_brought_out, owned_by, shown_at, OnlyBetween, FirstAlone};

use crate::meshes::Mesh;
use alw_links::Link;
use alw_msg::{Kind, Msg};
use alw_node::{HomeView, Node};
use alw_num::{Line, LineNo, Mode, NodeNo, State};

impl Mesh {
    /// The current value of a line: its one carrier's, or else its home's. A line whose home is Read-Only
    /// has no carrier. One whose home is Read-Write has it at the node that the home points to. For
    /// another it looks at each node's copy, and at the messages between each node and the home. The
    /// home's packets are looked at too.
    pub fn value(&self, line: LineNo) -> Line
        requires line { line.0 < line_count self.now.image }
        requires senders { AllByRecursion (λ packet. packet.src.0 < node_count self.now.image) (packets_at self.now.image self.now.machine line.0) }
        requires one { length (carriers (node_count self.now.image) (line_of self.now.image self.now.parameters self.now.machine line.0)) ≤ 1 }
        requires shared { (entry_of self.now.image self.now.machine line.0).state ≡ RO →
            carriers (node_count self.now.image) (line_of self.now.image self.now.parameters self.now.machine line.0) ≡ [] }
        requires owned { (entry_of self.now.image self.now.machine line.0).state ≡ RW →
            FirstAlone (node_count self.now.image) (line_of self.now.image self.now.parameters self.now.machine line.0) }
        ensures { result ≡ current_value self.now.image self.now.parameters self.now.machine line.0 }
    {
        let home = self.home(line);
        match home.state {
            State::RO => home.body,
            State::RW => self.owned_value(line, &home),
            State::RT | State::WT => self.found_value(line, 0, self.count()),
        }
    }

    // The same, where the home is Read-Write.
    fn owned_value(&self, line: LineNo, home: &HomeView) -> Line
        requires line { line.0 < line_count self.now.image }
        requires home { IsViewOf home.now (entry_of self.now.image self.now.machine line.0) }
        requires senders { AllByRecursion (λ packet. packet.src.0 < node_count self.now.image) (packets_at self.now.image self.now.machine line.0) }
        requires one { length (carriers (node_count self.now.image) (line_of self.now.image self.now.parameters self.now.machine line.0)) ≤ 1 }
        requires owned { FirstAlone (node_count self.now.image) (line_of self.now.image self.now.parameters self.now.machine line.0) }
        ensures { result ≡ current_value self.now.image self.now.parameters self.now.machine line.0 }
    {
        match home.hw.union(home.sw).lowest() {
            Some(owner) => self.found_value(line, owner.0, owner.0 + 1),
            None => self.found_value(line, 0, self.count()),
        }
    }

    // The same, where the nodes from one number to before another alone may carry the line.
    fn found_value(&self, line: LineNo, first: u16, end: u16) -> Line
        requires line { line.0 < line_count self.now.image }
        requires senders { AllByRecursion (λ packet. packet.src.0 < node_count self.now.image) (packets_at self.now.image self.now.machine line.0) }
        requires one { length (carriers (node_count self.now.image) (line_of self.now.image self.now.parameters self.now.machine line.0)) ≤ 1 }
        requires between { OnlyBetween (node_count self.now.image) (line_of self.now.image self.now.parameters self.now.machine line.0) first end }
        ensures { result ≡ current_value self.now.image self.now.parameters self.now.machine line.0 }
    {
        let home = self.home_of(line);
        if let Some(body) = brought_by_packets(self.node(home), line) {
            return body;
        }
        for n in first..end.min(self.count()) {
            if let Some(body) = self.shown(NodeNo(n), home, line) {
                return body;
            }
        }
        self.home(line).body
    }

    // The bytes of a line that a node has in a Read-Write copy, or that are on their way between it and
    // the line's home. None where there are none.
    fn shown(&self, n: NodeNo, home: NodeNo, line: LineNo) -> Option<Line>
        requires node { n.0 < node_count self.now.image }
        requires home { home.0 < node_count self.now.image }
        ensures { result ≡ front (shown_at self.now.image self.now.parameters self.now.machine n.0 home.0 line.0) }
    {
        if let Some(body) = owned_by(self.node(n), line) {
            return Some(body);
        }
        if let Some(body) = brought_out_on(self.link(home, n), line) {
            return Some(body);
        }
        brought_home_on(self.link(n, home), line)
    }
}

// The bytes of a node's Read-Write copy of a line. None where it has none.
fn owned_by(node: &Node, line: LineNo) -> Option<Line>
    ensures { result ≡ front (owned_by node.now.parameters.sets node.now.state line.0) }
{
    let set = line.0 % node.params().sets();
    match node.cached(set) {
        Some((cached, Mode::Write, body)) if cached == line => Some(body),
        _ => None,
    }
}

// The bytes of a line that a message brings home: it is a REPM or an UPDATE.
fn brought_home(msg: &Msg, line: LineNo) -> Option<Line>
    ensures { option_to_list result ≡ brought_home line.0 msg.now }
{
    match msg.kind {
        Kind::REPM | Kind::UPDATE if msg.line == line => Some(msg.body),
        _ => None,
    }
}

// The bytes of a line that a message brings to be written: it is a WDATA.
fn brought_out(msg: &Msg, line: LineNo) -> Option<Line>
    ensures { option_to_list result ≡ brought_out line.0 msg.now }
{
    match msg.kind {
        Kind::WDATA if msg.line == line => Some(msg.body),
        _ => None,
    }
}

// The bytes of a line that the first of the messages on a link brings home. None where none does.
fn brought_home_on(link: Link<'_>, line: LineNo) -> Option<Line>
    ensures { result ≡ front (all_brought_home line.0 link.entry) }
{
    for msg in link {
        if let Some(body) = brought_home(msg, line) {
            return Some(body);
        }
    }
    None
}

// The bytes of a line that the first of the messages on a link brings to be written. None where none
// does.
fn brought_out_on(link: Link<'_>, line: LineNo) -> Option<Line>
    ensures { result ≡ front (all_brought_out line.0 link.entry) }
{
    for msg in link {
        if let Some(body) = brought_out(msg, line) {
            return Some(body);
        }
    }
    None
}

// The bytes of a line that the first of a node's packets brings home. None where none does.
fn brought_by_packets(node: &Node, line: LineNo) -> Option<Line>
    ensures { result ≡ front (all_brought_home line.0 node.now.state.packets) }
{
    for i in 0..node.packets() {
        let packet = node.packet(i)?;
        if let Some(body) = brought_home(&packet, line) {
            return Some(body);
        }
    }
    None
}
