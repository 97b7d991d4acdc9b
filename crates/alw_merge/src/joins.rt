ghost use Rattle.std.specs.Prelude.{◌≡◌, IfOk};
ghost use Rattle.alw_model.specs.Threads.{merged};
ghost use Rattle.alw_cells.specs.Leaving.{LogsAreWorked};
ghost use Rattle.alw_cells.specs.Logs.{logged};
ghost use Rattle.alw_mesh.specs.Histories.{joined_of};
ghost use Rattle.alw_merge.specs.Joins.{holds_at};
ghost use Rattle.alw_merge.specs.Spans.{IsOfWorked};

use crate::walks::{Walked, walk, walk_by};
use alw_cells::Worked;
use alw_image::{Image, Params};
use alw_mesh::{JoinedParts, Machine};
use alw_model::Counts;
use alw_node::Nodes;
use alw_num::NoMemory;
use std::alloc::Global;
use std::thread::Threads;

/// The machine that workers leave: its journal is the merge of their logs, its nodes are theirs, and its
/// links have what each log sent beyond what the other took. No node takes a step again. What was moved
/// in is given up where memory is refused.
pub fn join(
    alloc: Global,
    image: &Image,
    params: &Params,
    worked: Worked,
) -> Result<Machine, NoMemory>
    requires { LogsAreWorked image.now params.now worked }
    ensures { IfOk result (λ machine. machine ≡ joined_of image.now params.now (merged (logged worked.logs))) }
{
    let Worked { logs, nodes, dids } = worked;
    let walked = walk(alloc, image, params, &logs, &dids)?;
    machine_of(alloc, image, params, walked, nodes)
}

/// The same by so many threads at most, each of which merges a span of stamps.
pub fn join_by<R: Threads + Sync>(
    rt: &R,
    alloc: Global,
    image: &Image,
    params: &Params,
    worked: Worked,
    threads: u32,
) -> Result<Machine, NoMemory>
    requires { LogsAreWorked image.now params.now worked }
    ensures { IfOk result (λ machine. machine ≡ joined_of image.now params.now (merged (logged worked.logs))) }
{
    let Worked { logs, nodes, dids } = worked;
    let last = last_clock(&nodes);
    let walked = walk_by(rt, alloc, image, params, &logs, &dids, threads, last)?;
    machine_of(alloc, image, params, walked, nodes)
}

// The latest clock of nodes.
fn last_clock(nodes: &Nodes) -> u32 {
    let mut last = 0;
    for n in 0..nodes.len() {
        last = last.max(nodes.at_ref(n).clock());
    }
    last
}

// The machine of what was walked, whose nodes these are.
fn machine_of(
    alloc: Global,
    image: &Image,
    params: &Params,
    walked: Walked,
    nodes: Nodes,
) -> Result<Machine, NoMemory>
    requires { IsOfWorked image.now params.now walked nodes }
    ensures { IfOk result (λ machine. machine ≡ joined_of image.now params.now walked.journal) }
{
    let _allowed = image.parts(); // for its clause
    let _read = params.limit(); // for its clause
    let counts = Counts {
        used: walked.counts.replies - holds_of(&nodes),
        ..walked.counts
    };
    let parts = JoinedParts {
        journal: walked.journal,
        nodes,
        links: walked.links,
        turns: walked.turns,
        prints: walked.prints,
        counts,
    };
    Machine::joined(alloc, image, params, parts)
}

// The number of slots with a hold, at all nodes.
fn holds_of(nodes: &Nodes) -> u64
    ensures { result ≡ holds_at nodes.now }
{
    let mut holds = 0;
    for n in 0..nodes.len() {
        holds += u64::from(nodes.at_ref(n).holds());
    }
    holds
}
