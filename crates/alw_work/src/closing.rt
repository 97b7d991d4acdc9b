ghost use Rattle.std.specs.Prelude.{◌≡◌, ◌<◌, ◌*◌, length, vec_len, IfOk, IfSome};
ghost use Rattle.alw_image.specs.Images.{node_count};
ghost use Rattle.alw_work.specs.Seats.{CellsAreGathered};
ghost use Rattle.alw_work.specs.Ties.{cells_in, EndsAreTied, SendPlain, AllAgree, HasOut, HasIn, TakesOut, TakesIn};

use crate::ends::{In, Out};
use crate::seats::{Locked, Naming};
use alw_cells::NodeCell;
use alw_num::NoMemory;
use alw_ruled::Link;
use std::alloc::Global;
use std::sync::{Mutex, Wait};

/// What a lock leaves: a node's cell, and the ends of its links.
#[derive(Drop)]
pub struct Left {
    pub cell: NodeCell,
    pub outs: Vec<Out>,
    pub ins: Vec<In>,
}

/// What the locks have kept, and whether a node has trapped. None where a lock has the cell of another
/// place, or where there aren't so many.
pub fn gather<I: Naming>(
    alloc: Global,
    nodes: u16,
    locks: Vec<Mutex<Locked<I>>>,
) -> Result<Option<(Vec<Left>, bool)>, NoMemory>
    ensures cells { IfOk result (λ found. IfSome found (λ left. CellsAreGathered I.image I.parameters nodes (cells_in left.0.items) left.1)) }
    ensures tied { IfOk result (λ found. IfSome found (λ left. EndsAreTied I.links (node_count I.image) left.0.items)) }
{
    let mut lefts = Vec::new(alloc);
    let mut trapped = false;
    for lock in locks {
        let (number, cell, has_trapped, outs, ins) = lock.into_inner().open();
        if usize::from(number.0) != lefts.len() {
            return Ok(None);
        }
        lefts.push(Left { cell, outs, ins })?;
        trapped |= has_trapped;
    }
    if lefts.len() == usize::from(nodes) {
        Ok(Some((lefts, trapped)))
    } else {
        Ok(None)
    }
}

/// Closes the links. What has come to each node of each is then a front of what that one sent it.
pub fn close_all<R: Wait>(rt: &R, nodes: u16, mut links: Vec<Link>, lefts: &mut Vec<Left>)
    requires some { 0 < nodes }
    requires links { length links.items ≡ nodes * nodes }
    requires count { length lefts.old.items ≡ nodes }
    requires tied { EndsAreTied links.items nodes lefts.old.items }
    requires plain { SendPlain (cells_in lefts.old.items) }
    ensures cells { cells_in lefts.new.items ≡ cells_in lefts.old.items }
    ensures agree { AllAgree (cells_in lefts.old.items) }
{
    let nodes = usize::from(nodes);
    while let Some(link) = links.pop() {
        let place = links.len();
        let out = take_out(lefts, place / nodes);
        let come = take_in(lefts, place % nodes);
        let Out {
            end: sender,
            kept: _,
        } = out;
        let In {
            end: receiver,
            kept: _,
        } = come;
        link.close(rt, sender, receiver);
    }
}

/// The cells alone, in order.
pub fn cells_of(alloc: Global, lefts: Vec<Left>) -> Result<Vec<NodeCell>, NoMemory>
    ensures { IfOk result (λ cells. cells.items ≡ cells_in lefts.items) }
{
    let mut cells = Vec::new(alloc);
    for left in lefts {
        let Left {
            cell,
            outs: _,
            ins: _,
        } = left;
        cells.push(cell)?;
    }
    Ok(cells)
}

// The last of the sender's ends of a node.
fn take_out(lefts: &mut Vec<Left>, from: usize) -> Out
    requires { HasOut from lefts.old.items }
    ensures { TakesOut from lefts.old.items lefts.new.items result }
{
    let Some(out) = lefts[from].outs.pop() else {
        unreachable!()
    };
    out
}

// The last of the receiver's ends of a node.
fn take_in(lefts: &mut Vec<Left>, to: usize) -> In
    requires { HasIn to lefts.old.items }
    ensures { TakesIn to lefts.old.items lefts.new.items result }
{
    let Some(come) = lefts[to].ins.pop() else {
        unreachable!()
    };
    come
}
