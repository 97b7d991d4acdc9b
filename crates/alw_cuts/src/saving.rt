ghost use Rattle.alw_answers.specs.Outputs.{Gives};
ghost use Rattle.alw_cuts.specs.Saving.{Saves, IsNoCut};

use crate::refusals::refusal_of_cut;
use alw_answers::{Ending, Output, Refusal};
use alw_mesh::MachineParts;
use alw_save::{checkpoint, machine_at};
use alw_trace::read_trace;
use std::alloc::Global;

/// Cuts the trace that bytes spell at a stamp, to the checkpoint of what is kept.
pub fn save_bytes(alloc: Global, at: u32, bytes: &[u8]) -> Result<Output, Refusal>
    ensures { Gives (Saves at bytes.now) (IsNoCut bytes.now) result }
{
    let trace = read_trace(alloc, bytes)?;
    let machine = match machine_at(alloc, &trace, at) {
        Ok(machine) => machine,
        Err(cut) => return Err(refusal_of_cut(cut)),
    };
    let text = checkpoint(alloc, &machine)?;
    let MachineParts { journal, .. } = machine.into_parts();
    Ok(Output {
        text,
        ending: Ending::Fine,
        journal,
        merged: 0,
    })
}
