ghost use Rattle.std.specs.Prelude.{◌≡◌, ◌<◌};
ghost use Rattle.alw_image.specs.Images.{node_count};
ghost use Rattle.alw_work.specs.Ties.{AreTiedOuts, AreTiedIns, IsSameButCome, IsSameButGiven, Fetches, Offers};

use crate::ends::{In, Out};
use crate::signs::Signs;
use alw_cells::NodeCell;
use alw_num::{MOST_NODES, NoMemory, NodeNo, NodeSet};
use alw_ruled::Link;
use std::sync::Wait;

// The most messages of a link that a turn takes in.
const MOST_TAKEN: u32 = 16;

/// Takes in what the links to a node from some senders have, up to so many messages of each. Where there
/// may be more of one, it is marked again.
pub fn fetch<R: Wait>(
    rt: &R,
    links: &[Link],
    number: NodeNo,
    nodes: u16,
    cell: &mut NodeCell,
    ins: &mut Vec<In>,
    mut senders: NodeSet,
    signs: &Signs,
) -> Result<(), NoMemory>
    requires nodes { nodes ≡ node_count cell.old.node.parts }
    requires tied { AreTiedIns links.now nodes number.0 cell.old ins.old.items }
    ensures same { IsSameButCome cell.old cell.new }
    ensures tied { AreTiedIns links.now nodes number.0 cell.new ins.new.items }
{
    for _ in 0..MOST_NODES {
        let Some(from) = senders.lowest() else {
            break;
        };
        senders = senders.without(from);
        if fetch_at(rt, links, number, nodes, from, cell, ins)? {
            signs.mark(number, from);
        }
    }
    Ok(())
}

// Takes in what the link from a node has. Answers whether there may be more.
fn fetch_at<R: Wait>(
    rt: &R,
    links: &[Link],
    number: NodeNo,
    nodes: u16,
    from: NodeNo,
    cell: &mut NodeCell,
    ins: &mut Vec<In>,
) -> Result<bool, NoMemory>
    requires nodes { nodes ≡ node_count cell.old.node.parts }
    requires tied { AreTiedIns links.now nodes number.0 cell.old ins.old.items }
    ensures same { IsSameButCome cell.old cell.new }
    ensures tied { AreTiedIns links.now nodes number.0 cell.new ins.new.items }
{
    let at = usize::from(from.0);
    if from.0 >= nodes {
        return Ok(false);
    }
    let Some(link) = links.get(at * usize::from(nodes) + usize::from(number.0)) else {
        return Ok(false);
    };
    fetch_from(rt, link, from, cell, &mut ins[at])
}

// Takes in what a link has, up to so many messages. Answers whether there may be more.
fn fetch_from<R: Wait>(
    rt: &R,
    link: &Link,
    from: NodeNo,
    cell: &mut NodeCell,
    come: &mut In,
) -> Result<bool, NoMemory>
    requires from { from.0 < node_count cell.old.node.parts }
    requires link { come.old.end.link ≡ link.now }
    ensures { Fetches from.0 cell.old cell.new come.old come.new }
{
    for _ in 0..MOST_TAKEN {
        if !fetch_one(rt, link, from, cell, come)? {
            return Ok(false);
        }
    }
    Ok(true)
}

// Takes in the next message of a link. Answers whether there was one.
fn fetch_one<R: Wait>(
    rt: &R,
    link: &Link,
    from: NodeNo,
    cell: &mut NodeCell,
    come: &mut In,
) -> Result<bool, NoMemory>
    requires from { from.0 < node_count cell.old.node.parts }
    requires link { come.old.end.link ≡ link.now }
    ensures { Fetches from.0 cell.old cell.new come.old come.new }
{
    let _stands = cell.log(); // for its clause
    let Some(msg) = come.receive(rt, link) else {
        return Ok(false);
    };
    if cell.take_in(from, msg).is_err() {
        come.kept = Some(msg);
        return Err(NoMemory);
    }
    Ok(true)
}

/// Gives the links what the cell has sent, in order, until something waits at an end. Answers the node whose
/// link that is.
pub fn offer<R: Wait>(
    rt: &R,
    links: &[Link],
    number: NodeNo,
    nodes: u16,
    cell: &mut NodeCell,
    outs: &mut Vec<Out>,
    late: Option<NodeNo>,
    signs: &Signs,
) -> Option<NodeNo>
    requires { AreTiedOuts links.now nodes number.0 cell.old outs.old.items }
    ensures same { IsSameButGiven cell.old cell.new }
    ensures tied { AreTiedOuts links.now nodes number.0 cell.new outs.new.items }
{
    let mut next = late;
    for _ in 0..MOST_NODES {
        let Some(to) = next.or(cell.first_out()) else {
            return None;
        };
        next = None;
        let sent = offer_at(rt, links, number, nodes, to, cell, outs);
        signs.mark(to, number);
        signs.wake(to, cell.node().clock());
        if !sent {
            return Some(to);
        }
    }
    None
}

// Gives the link to a node what waits at its end, and the first message of the out list. Answers whether
// nothing waits there then.
fn offer_at<R: Wait>(
    rt: &R,
    links: &[Link],
    number: NodeNo,
    nodes: u16,
    to: NodeNo,
    cell: &mut NodeCell,
    outs: &mut Vec<Out>,
) -> bool
    requires { AreTiedOuts links.now nodes number.0 cell.old outs.old.items }
    ensures same { IsSameButGiven cell.old cell.new }
    ensures tied { AreTiedOuts links.now nodes number.0 cell.new outs.new.items }
{
    let at = usize::from(to.0);
    if at >= outs.len() {
        return false;
    }
    let Some(link) = links.get(usize::from(number.0) * usize::from(nodes) + at) else {
        return false;
    };
    offer_to(rt, link, to, cell, &mut outs[at])
}

// The same, of this link.
fn offer_to<R: Wait>(rt: &R, link: &Link, to: NodeNo, cell: &mut NodeCell, out: &mut Out) -> bool
    requires { out.old.end.link ≡ link.now }
    ensures { Offers to.0 cell.old cell.new out.old out.new }
{
    if !out.flush(rt, link) {
        return false;
    }
    match cell.give_out(to) {
        Some(msg) => out.send(rt, link, msg),
        None => true,
    }
}
