ghost use Rattle.std.specs.Prelude.{◌≡◌, ◌<◌, ◌*◌, length, vec_len, IfOk};
ghost use Rattle.alw_image.specs.Images.{node_count};
ghost use Rattle.alw_cells.specs.Logs.{logged};
ghost use Rattle.alw_cells.specs.Leaving.{LogsAreWorked};
ghost use Rattle.alw_work.specs.Works.{AreSpent, WorkIsLeft};
ghost use Rattle.alw_work.specs.Ties.{RowsAreNew, LinksAreColumns, LinksAreLaid};

use crate::cells::{finish_all, split_all, start_all};
use crate::closing::{cells_of, close_all, gather};
use crate::ends::{In, Out};
use crate::gates::Gate;
use crate::laying::{Laid, lay_links};
use crate::ready::Counting;
use crate::seats::{Locked, Naming};
use crate::workers::work;
use alw_cells::{NodeCell, Worked};
use alw_image::{Image, Params};
use alw_node::Program;
use alw_num::{NoMemory, NodeNo};
use alw_ruled::Link;
use std::alloc::Global;
use std::marker::Brand;
use std::mem;
use std::sync::{Arc, Mutex, Wait};
use std::thread::Threads;

/// Steps the nodes of an image on so many threads, from the start, and answers what each node did. Unless
/// a context trapped, each node has come to its limit, or has no Ready context and no packet left. It may
/// wait for a lock; what it promises holds where it returns.
pub fn run_workers<R: Threads + Wait + Sync, G: Gate>(
    rt: &R,
    alloc: Global,
    image: &Image,
    params: &Params,
    workers: u32,
    gate: &G,
) -> Result<Worked, NoMemory>
    ensures worked { IfOk result (λ worked. LogsAreWorked image.now params.now worked) }
    ensures spent { IfOk result (λ worked. AreSpent image.now params.now (logged worked.logs)) }
{
    let laid = lay_links(rt, alloc, image.nodes(), workers)?;
    run_named::<Brand, R, G>(rt, alloc, image, params, laid, workers, gate)
}

// The same, of the image and the parameters that the type names, over the links that it names.
fn run_named<I: Naming + Counting + Send + Sync, R: Threads + Wait + Sync, G: Gate>(
    rt: &R,
    alloc: Global,
    image: &Image,
    params: &Params,
    laid: Laid,
    workers: u32,
    gate: &G,
) -> Result<Worked, NoMemory>
    requires image { image.now ≡ I.image }
    requires parameters { params.now ≡ I.parameters }
    requires counted { node_count image.now ≡ I.nodes }
    requires links { laid.links.items ≡ I.links }
    requires laid { LinksAreLaid (node_count image.now) laid }
    ensures { IfOk result (λ worked. WorkIsLeft image.now params.now worked) }
{
    let Laid { links, outs, ins } = laid;
    let locks = lock_each(alloc, start_seats::<I>(alloc, image, params, outs, ins)?)?;
    work::<I, R, G>(rt, alloc, &locks, &links, image.nodes(), workers, gate)?;
    take_over::<I, R>(rt, alloc, image, params, links, locks, workers)
}

// All nodes at the start, each with the ends of its links.
fn start_seats<I: Naming>(
    alloc: Global,
    image: &Image,
    params: &Params,
    mut outs: Vec<Vec<Out>>,
    mut ins: Vec<Vec<In>>,
) -> Result<Vec<Locked<I>>, NoMemory>
    requires image { image.now ≡ I.image }
    requires parameters { params.now ≡ I.parameters }
    requires rows { length outs.items ≡ node_count image.now }
    requires outs { RowsAreNew I.links (node_count image.now) outs.items }
    requires ins { LinksAreColumns I.links (node_count image.now) (node_count image.now) 0 ins.items }
{
    let program = Arc::new(alloc, Program::of(image.code())?)?;
    let nodes = image.nodes();
    let mut seats = Vec::new(alloc);
    for n in 0..nodes {
        let number = NodeNo(n);
        let cell = NodeCell::start_shared(alloc, image, params, number, &program)?;
        let row = mem::replace(&mut outs[usize::from(n)], Vec::new(alloc));
        let column = mem::replace(&mut ins[usize::from(n)], Vec::new(alloc));
        seats.push(Locked::of(number, nodes, cell, row, column))?;
    }
    Ok(seats)
}

// Each behind a lock of its own.
fn lock_each<I: Naming>(
    alloc: Global,
    seats: Vec<Locked<I>>,
) -> Result<Vec<Mutex<Locked<I>>>, NoMemory> {
    let mut locks = Vec::with_capacity(alloc, seats.len())?;
    for seat in seats {
        locks.push(Mutex::new(seat))?;
    }
    Ok(locks)
}

// What the workers leave. Each cell is compared with its place: where one is of another place, all nodes
// start anew. Else the links are closed, and where none has trapped, each node is stepped until it is idle.
fn take_over<I: Naming, R: Wait>(
    rt: &R,
    alloc: Global,
    image: &Image,
    params: &Params,
    links: Vec<Link>,
    locks: Vec<Mutex<Locked<I>>>,
    workers: u32,
) -> Result<Worked, NoMemory>
    requires image { image.now ≡ I.image }
    requires parameters { params.now ≡ I.parameters }
    requires links { links.items ≡ I.links }
    requires all { length links.items ≡ node_count image.now * node_count image.now }
    ensures { IfOk result (λ worked. WorkIsLeft image.now params.now worked) }
{
    let nodes = image.nodes();
    let Some((mut lefts, trapped)) = gather(alloc, nodes, locks)? else {
        return run_apart(alloc, image, params, workers);
    };
    close_all(rt, nodes, links, &mut lefts);
    let mut cells = cells_of(alloc, lefts)?;
    if trapped {
        return split_all(alloc, cells);
    }
    finish_all(&mut cells, u64::from(workers))?;
    split_all(alloc, cells)
}

// The nodes from the start, each stepped by itself until it is idle. None takes a message, so links agree.
fn run_apart(
    alloc: Global,
    image: &Image,
    params: &Params,
    workers: u32,
) -> Result<Worked, NoMemory>
    ensures { IfOk result (λ worked. WorkIsLeft image.now params.now worked) }
{
    let mut cells = start_all(alloc, image, params)?;
    finish_all(&mut cells, u64::from(workers))?;
    split_all(alloc, cells)
}
