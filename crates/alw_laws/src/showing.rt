ghost use Rattle.std.specs.Prelude.{◌≡◌, ◌<◌, ◌∷◌, [], ◌++◌, option_to_list, IfOk, OnOk};
ghost use Rattle.alw_msg.specs.Lists.{front};
ghost use Rattle.alw_image.specs.Images.{node_count, line_count};
ghost use Rattle.alw_model.specs.Messages.{home_node};
ghost use Rattle.alw_model.specs.Lines.{packets_at};
ghost use Rattle.alw_mesh.specs.Histories.{state_of};
ghost use Rattle.alw_laws.specs.Views.{MeetsInvariant};
ghost use Rattle.alw_laws.specs.Shown.{Shows, copies_of, transactions_of, link_of, of_line, by_node};

use crate::views::{Copies, LineView, LinkMsgs, Pending};
use alw_mesh::Machine;
use alw_msg::Msg;
use alw_num::{Line, LineNo, MOST_NODES, Mode, NoMemory, NodeNo};
use std::alloc::Global;

/// What a machine has of a line, which meets the line invariant: `inspect` is true of it. It looks at
/// each node, at the links between each node and the line's home, and at the home's packets.
pub fn view(alloc: Global, machine: &Machine, line: LineNo) -> Result<LineView, NoMemory>
    requires { line.0 < line_count machine.now.image }
    ensures shows { IfOk result (λ view. Shows machine.now.image machine.now.parameters (state_of machine.now) line.0 view) }
    ensures sound { IfOk result (λ view. MeetsInvariant MOST_NODES view) }
{
    let _run = machine.journal(); // for its clause
    Ok(LineView {
        line,
        at: machine.home_of(line),
        home: machine.home(line),
        copies: copies(alloc, machine, line)?,
        transactions: transactions(alloc, machine, line)?,
        links: links(alloc, machine, line)?,
        packet: packet(machine, line),
    })
}

// Every copy of the line, by ascending node.
fn copies(alloc: Global, machine: &Machine, line: LineNo) -> Result<Copies, NoMemory>
    ensures { IfOk result (λ copies. copies ≡ by_node machine.now.image (copies_of machine.now.parameters (state_of machine.now) line.0)) }
{
    let mut copies = Copies::empty(alloc);
    for n in 0..machine.nodes() {
        if let Some(copy) = copy(machine, NodeNo(n), line) {
            copies.push(copy)?;
        }
    }
    Ok(copies)
}

// A node's copy of the line.
fn copy(machine: &Machine, n: NodeNo, line: LineNo) -> Option<(NodeNo, Mode, Line)>
    requires { n.0 < node_count machine.now.image }
    ensures { option_to_list result ≡ copies_of machine.now.parameters (state_of machine.now) line.0 n.0 }
{
    let set = line.0 % machine.params().sets();
    match machine.cached(n, set) {
        Some((cached, mode, body)) if cached == line => Some((n, mode, body)),
        _ => None,
    }
}

// Every transaction on the line, by ascending node.
fn transactions(alloc: Global, machine: &Machine, line: LineNo) -> Result<Pending, NoMemory>
    requires { line.0 < line_count machine.now.image }
    ensures { IfOk result (λ transactions. transactions ≡ by_node machine.now.image (transactions_of (state_of machine.now) line.0)) }
{
    let mut transactions = Pending::empty(alloc);
    for n in 0..machine.nodes() {
        if let Some(mode) = machine.pending(NodeNo(n), line) {
            transactions.push((NodeNo(n), mode))?;
        }
    }
    Ok(transactions)
}

// Every message about the line, by the nodes of its link and in link order. It stands on a link from or
// to the line's home.
fn links(alloc: Global, machine: &Machine, line: LineNo) -> Result<LinkMsgs, NoMemory>
    requires { line.0 < line_count machine.now.image }
    ensures { IfOk result (λ links. links ≡ by_node machine.now.image (λ from. by_node machine.now.image (link_of machine.now.image (state_of machine.now) line.0 from))) }
{
    let _run = machine.journal(); // for its clause
    let at = machine.home_of(line);
    let mut links = LinkMsgs::empty(alloc);
    for n in 0..machine.nodes() {
        let from = NodeNo(n);
        if from == at {
            put_home_links(&mut links, machine, line, at)?;
        } else {
            put_link(&mut links, machine, line, from, at)?;
        }
    }
    Ok(links)
}

// Appends the messages about the line on the links from its home.
fn put_home_links(
    links: &mut LinkMsgs,
    machine: &Machine,
    line: LineNo,
    at: NodeNo,
) -> Result<(), NoMemory>
    requires { at.0 < node_count machine.now.image }
    ensures { OnOk result (links.new ≡ links.old ++ by_node machine.now.image (link_of machine.now.image (state_of machine.now) line.0 at.0)) }
{
    for n in 0..machine.nodes() {
        put_link(links, machine, line, at, NodeNo(n))?;
    }
    Ok(())
}

// Appends the messages about the line on the link of two nodes.
fn put_link(
    links: &mut LinkMsgs,
    machine: &Machine,
    line: LineNo,
    from: NodeNo,
    to: NodeNo,
) -> Result<(), NoMemory>
    requires from { from.0 < node_count machine.now.image }
    requires to { to.0 < node_count machine.now.image }
    ensures { OnOk result (links.new ≡ links.old ++ link_of machine.now.image (state_of machine.now) line.0 from.0 to.0) }
{
    for msg in machine.link(from, to) {
        if msg.line == line {
            put(links, (from, to, *msg))?;
        }
    }
    Ok(())
}

// Appends a message. A list that can have no more has no memory for it.
fn put(links: &mut LinkMsgs, sent: (NodeNo, NodeNo, Msg)) -> Result<(), NoMemory>
    ensures { OnOk result (links.new ≡ links.old ++ sent ∷ []) }
{
    if links.len() == u32::MAX {
        return Err(NoMemory);
    }
    links.push(sent)
}

// The packet of the line that waits for the handler.
fn packet(machine: &Machine, line: LineNo) -> Option<Msg>
    requires { line.0 < line_count machine.now.image }
    ensures { result ≡ front (of_line line.0 (packets_at machine.now.image (state_of machine.now) line.0)) }
{
    let at = machine.home_of(line);
    for i in 0..machine.packets(at) {
        let packet = machine.packet(at, i)?;
        if packet.line == line {
            return Some(packet);
        }
    }
    None
}
