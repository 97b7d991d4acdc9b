ghost use Rattle.alw_mesh.specs.Limits.{most_timed_steps};
ghost use Rattle.alw_answers.specs.Outputs.{Gives};
ghost use Rattle.alw_runs.specs.Replaying.{TakesAgain, IsNoReplay};
ghost use Rattle.alw_cycles.specs.Timing.{time_text};

use crate::texts::{tells_by, time_text};
use alw_answers::{Output, Refusal};
use alw_config::TimeForm;
use alw_runs::{end_of_trace, output_with};
use alw_times::Costs;
use alw_timing::{TimedRun, time};
use alw_trace::read_trace;
use std::alloc::Global;

/// Tells the times of the run that the trace which bytes spell is of, by these costs, in a form. Its journal is answered,
/// and its end is the run's.
pub fn time_bytes(
    alloc: Global,
    costs: &Costs,
    form: TimeForm,
    bytes: &[u8],
) -> Result<Output, Refusal>
    ensures { Gives (TakesAgain most_timed_steps (time_text costs.now form) bytes.now) (IsNoReplay most_timed_steps bytes.now) result }
{
    let trace = read_trace(alloc, bytes)?;
    let _allowed = trace.image.nodes(); // for its clause
    let TimedRun {
        machine,
        kept,
        times,
    } = time(
        alloc,
        &trace.image,
        &trace.params,
        costs,
        tells_by(form),
        &trace.journal,
    )?;
    let ended = end_of_trace(&trace, &machine, kept)?;
    let text = time_text(alloc, costs, form, &machine, &ended, &times)?;
    Ok(output_with(machine, ended, text))
}
