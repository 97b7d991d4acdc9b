ghost use Rattle.std.specs.Prelude.{◌≡◌, ◌<◌, ◌^◌, IfOk, IfSome};
ghost use Rattle.alw_mesh.specs.Histories.{state_of};
ghost use Rattle.alw_save.specs.Checkpoints.{state_part};
ghost use Rattle.alw_save.specs.Cuts.{LeavesAll};
ghost use Rattle.alw_save.specs.Differences.{Differs};
ghost use Rattle.alw_save.specs.Restoring.{Restores, with_evict};

use crate::cuts::machine_of;
use crate::differences::first_difference;
use crate::faults::{CutErr, RestoreErr};
use crate::saves::state_text;
use alw_image::Params;
use alw_mesh::Machine;
use alw_num::NoMemory;
use alw_trace::{Trace, read_front};
use std::alloc::Global;

/// The machine after a checkpoint's entries, under its parameters and with this evict. The entries are taken
/// again, and the state that the checkpoint tells has to be the one that they leave.
pub fn restore(alloc: Global, bytes: &[u8], evict: u8) -> Result<Machine, RestoreErr>
    ensures { Restores bytes.now evict result }
{
    let (front, rest) = read_front(alloc, b"ALEWIFE SAVE 1\n", bytes)?;
    let machine = retaken(alloc, front.trace, evict)?;
    match difference(alloc, &machine, rest)? {
        None => Ok(machine),
        Some(agreed) => Err(RestoreErr::StateDiffers(front.behind + agreed)),
    }
}

// The machine after the entries of a trace, under its parameters with this evict.
fn retaken(alloc: Global, trace: Trace, evict: u8) -> Result<Machine, CutErr>
    ensures { LeavesAll (with_evict trace evict) result }
{
    machine_of(alloc, &with_evict(trace, evict))
}

// The first line of a text, from 0, that isn't the one of a machine's state.
fn difference(alloc: Global, machine: &Machine, text: &[u8]) -> Result<Option<u64>, NoMemory>
    ensures differs { IfOk result (λ line. Differs (state_part machine.now.image (state_of machine.now)) text.now line) }
    ensures few { IfOk result (λ line. IfSome line (λ agreed. agreed < 2 ^ 63)) }
{
    let state = state_text(alloc, machine)?;
    Ok(first_difference(state.bytes(), text))
}

// The trace under its parameters with this evict.
fn with_evict(trace: Trace, evict: u8) -> Trace
    ensures { result ≡ with_evict trace evict }
{
    let Trace {
        image,
        params,
        journal,
    } = trace;
    Trace {
        image,
        params: Params::of(params.pointers(), params.sets(), params.limit(), evict),
        journal,
    }
}
