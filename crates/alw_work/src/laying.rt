ghost use Rattle.std.specs.Prelude.{◌≡◌, ◌<◌, ◌*◌, vec_len, [], IfOk};
ghost use Rattle.alw_work.specs.Ties.{LinksAreColumns, LinksAreLaid, LaysRow};

use crate::ends::{In, Out};
use crate::spares::Spares;
use alw_num::NoMemory;
use alw_ruled::{Ends, Link};
use std::alloc::Global;
use std::sync::Wait;
use std::thread::Threads;

/// The links between nodes, that from node a to node b at place a * N + b, and their ends: of each node the
/// sender's to all nodes, in order, and the receiver's from all nodes.
#[derive(Drop)]
pub struct Laid {
    pub links: Vec<Link>,
    pub outs: Vec<Vec<Out>>,
    pub ins: Vec<Vec<In>>,
}

/// The links between so many nodes, on which nothing was sent. So many threads make them.
pub fn lay_links<R: Threads + Wait + Sync>(
    rt: &R,
    alloc: Global,
    nodes: u16,
    workers: u32,
) -> Result<Laid, NoMemory>
    ensures { IfOk result (λ laid. LinksAreLaid nodes laid) }
{
    let count = u32::from(nodes) * u32::from(nodes);
    let mut spares = Spares::made(rt, alloc, count, workers)?;
    let mut links = Vec::new(alloc);
    let mut outs = Vec::new(alloc);
    let mut ins = columns(alloc, nodes)?;
    for from in 0..nodes {
        let row = lay_row(rt, alloc, nodes, from, &mut spares, &mut links, &mut ins)?;
        outs.push(row)?;
    }
    Ok(Laid { links, outs, ins })
}

// A list of ends for each node, as yet empty.
fn columns(alloc: Global, nodes: u16) -> Result<Vec<Vec<In>>, NoMemory>
    ensures { IfOk result (λ ins. LinksAreColumns [] nodes 0 0 ins.items) }
{
    let mut ins = Vec::new(alloc);
    while ins.len() < usize::from(nodes) {
        ins.push(Vec::new(alloc))?;
    }
    Ok(ins)
}

// The links from a node to all nodes: the sender's ends of them, and of each node one receiver's end more.
fn lay_row<R: Wait>(
    rt: &R,
    alloc: Global,
    nodes: u16,
    from: u16,
    spares: &mut Spares,
    links: &mut Vec<Link>,
    ins: &mut Vec<Vec<In>>,
) -> Result<Vec<Out>, NoMemory>
    requires links { vec_len links.old ≡ from * nodes }
    requires ins { LinksAreColumns links.old.items nodes from 0 ins.old.items }
    ensures { IfOk result (λ row. LaysRow nodes from links.old.items links.new.items row.items ins.new.items) }
{
    let mut row = Vec::new(alloc);
    for to in 0..nodes {
        let Ends {
            link,
            sender,
            receiver,
        } = spares.next(rt, alloc)?;
        links.push(link)?;
        row.push(Out {
            end: sender,
            kept: None,
        })?;
        ins[usize::from(to)].push(In {
            end: receiver,
            kept: None,
        })?;
    }
    Ok(row)
}
