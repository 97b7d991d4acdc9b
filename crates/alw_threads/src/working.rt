ghost use Rattle.std.specs.Prelude.{◌≤◌, IfOk};
ghost use Rattle.alw_image.specs.Images.{node_count};
ghost use Rattle.alw_answers.specs.Outputs.{Gives};
ghost use Rattle.alw_runs.specs.Running.{parameters_in};
ghost use Rattle.alw_threads.specs.Working.{Works, IsNotWorked, FitsWorkers, IsJoinedByWorkers};

use alw_answers::{InputErr, Output, Refusal};
use alw_config::Form;
use alw_image::{Image, Params, read_image};
use alw_merge::join_by;
use alw_mesh::{Machine, fit};
use alw_num::NoMemory;
use alw_runs::told;
use alw_sched::finish;
use alw_work::{Gate, run_workers};
use std::alloc::Global;
use std::sync::Wait;
use std::thread::Threads;

/// Runs the image that bytes spell by workers on threads, and then by the schedule of seed 0, up to an end. It may
/// wait for a lock; what it promises holds where it returns.
pub fn work_bytes<R: Threads + Wait + Sync, G: Gate>(
    rt: &R,
    alloc: Global,
    workers: u32,
    params: &Params,
    form: Form,
    bytes: &[u8],
    gate: &G,
) -> Result<Output, Refusal>
    requires { 1 ≤ workers }
    ensures { Gives (Works workers (parameters_in params.now bytes.now) form bytes.now) (IsNotWorked workers (parameters_in params.now bytes.now) bytes.now) result }
{
    let image = read_image(alloc, bytes)?;
    let _allowed = params.limit(); // for its clause
    let params = params.for_nodes(image.nodes());
    fit_workers(&image, &params, workers)?;
    let mut machine = joined::<R, G>(rt, alloc, &image, &params, workers, gate)?;
    let merged = machine.journal().len();
    let ended = finish(&mut machine, 0)?;
    let mut output = told(alloc, machine, ended, form)?;
    output.merged = merged;
    Ok(output)
}

// The image fits, and has a node for each worker.
fn fit_workers(image: &Image, params: &Params, workers: u32) -> Result<(), Refusal>
    ensures { FitsWorkers workers params.now image.now result }
{
    fit(image, params)?;
    let nodes = u32::from(image.nodes());
    if workers > nodes {
        let fault = InputErr::WorkersDoNotFit(u64::from(workers), u64::from(nodes));
        return Err(Refusal::Fault(fault));
    }
    Ok(())
}

// The machine that is joined from what workers left.
fn joined<R: Threads + Wait + Sync, G: Gate>(
    rt: &R,
    alloc: Global,
    image: &Image,
    params: &Params,
    workers: u32,
    gate: &G,
) -> Result<Machine, NoMemory>
    requires some { 1 ≤ workers }
    requires few { workers ≤ node_count image.now }
    ensures { IfOk result (λ machine. IsJoinedByWorkers image.now params.now machine) }
{
    let worked = run_workers::<R, G>(rt, alloc, image, params, workers, gate)?;
    join_by(rt, alloc, image, params, worked, workers)
}
