ghost use Rattle.std.specs.Prelude.{◌≤◌, ℕ};
ghost use Rattle.alw_mesh.specs.Limits.{most_steps};
ghost use Rattle.alw_mesh.specs.Histories.{stamps_of};
ghost use Rattle.alw_replay.specs.Replays.{IsReplayed};
ghost use Rattle.alw_answers.specs.Outputs.{Gives};
ghost use Rattle.alw_runs.specs.Replaying.{Replays, IsNoReplay, EndsTrace};

use crate::forms::told;
use alw_answers::{InputErr, Output, Refusal};
use alw_config::Form;
use alw_mesh::Machine;
use alw_model::Ended;
use alw_replay::{Replayed, replay};
use alw_trace::{Trace, read_trace};
use std::alloc::Global;

/// Takes the events of the trace that bytes spell again: all its entries are legal, and an end holds after the
/// last.
pub fn replay_bytes(alloc: Global, form: Form, bytes: &[u8]) -> Result<Output, Refusal>
    ensures { Gives (Replays form bytes.now) (IsNoReplay most_steps bytes.now) result }
{
    let trace = read_trace(alloc, bytes)?;
    let Replayed { machine, kept } = replay(alloc, &trace.image, &trace.params, &trace.journal)?;
    let ended = end_of_trace(&trace, &machine, kept)?;
    let output = told(alloc, machine, ended, form)?;
    Ok(output)
}

/// The end that holds after the entries of a trace, of which a machine has taken so many.
pub fn end_of_trace(trace: &Trace, machine: &Machine, kept: u32) -> Result<Ended, Refusal>
    requires { IsReplayed trace.now.image trace.now.params trace.now.journal machine.now kept }
    ensures { (most : ℕ) → stamps_of trace.now.image trace.now.params ≤ most → EndsTrace most trace.now machine.now result }
{
    if kept < trace.journal.len() {
        return Err(Refusal::Fault(InputErr::NotLegal(kept)));
    }
    let Some(ended) = machine.ended() else {
        return Err(Refusal::Fault(InputErr::Unfinished));
    };
    Ok(ended)
}
