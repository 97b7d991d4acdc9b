ghost use Rattle.alw_answers.specs.Outputs.{Gives};
ghost use Rattle.alw_runs.specs.Running.{RunsBySeed, IsNoRun, parameters_in};

use crate::forms::told;
use alw_answers::{Output, Refusal};
use alw_config::Form;
use alw_image::{Params, read_image};
use alw_mesh::Machine;
use alw_sched::finish;
use std::alloc::Global;

/// RunsBySeed the image that bytes spell by the schedule of a seed, up to an end.
pub fn run_bytes(
    alloc: Global,
    seed: u64,
    params: &Params,
    form: Form,
    bytes: &[u8],
) -> Result<Output, Refusal>
    ensures { Gives (RunsBySeed seed (parameters_in params.now bytes.now) form bytes.now) (IsNoRun (parameters_in params.now bytes.now) bytes.now) result }
{
    let image = read_image(alloc, bytes)?;
    let _allowed = params.limit(); // for its clause
    let params = params.for_nodes(image.nodes());
    let mut machine = Machine::start(alloc, &image, &params)?;
    let ended = finish(&mut machine, seed)?;
    let output = told(alloc, machine, ended, form)?;
    Ok(output)
}
