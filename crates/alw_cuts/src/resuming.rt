ghost use Rattle.alw_answers.specs.Outputs.{Gives};
ghost use Rattle.alw_cuts.specs.Resuming.{Resumes, IsNoCheckpoint};

use crate::refusals::refusal_of_restore;
use alw_answers::{Output, Refusal};
use alw_config::Form;
use alw_runs::told;
use alw_save::restore;
use alw_sched::finish;
use std::alloc::Global;

/// Goes on from the checkpoint that bytes are, by the schedule of a seed, up to an end.
pub fn resume(
    alloc: Global,
    seed: u64,
    evict: u8,
    form: Form,
    bytes: &[u8],
) -> Result<Output, Refusal>
    ensures { Gives (Resumes seed evict form bytes.now) (IsNoCheckpoint evict bytes.now) result }
{
    let mut machine = match restore(alloc, bytes, evict) {
        Ok(machine) => machine,
        Err(fault) => return Err(refusal_of_restore(fault)),
    };
    let ended = finish(&mut machine, seed)?;
    let output = told(alloc, machine, ended, form)?;
    Ok(output)
}
