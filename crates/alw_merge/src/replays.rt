ghost use Rattle.std.specs.Prelude.{◌≡◌, OnOk};
ghost use Rattle.alw_model.specs.Threads.{merged};
ghost use Rattle.alw_cells.specs.Logs.{logged};
ghost use Rattle.alw_replay.specs.Replays.{Replays, taken_on};

use crate::merges::stream;
use crate::streams::Stream;
use alw_cells::Logs;
use alw_image::{Image, Params};
use alw_mesh::{FitErr, Machine};
use alw_num::NoMemory;
use alw_replay::{Replayed, take};
use std::alloc::Global;

/// What `replay` answers of the merge of all logs, of which no list is made.
pub fn replay_logs(
    alloc: Global,
    image: &Image,
    params: &Params,
    logs: &Logs,
) -> Result<Replayed, FitErr>
    ensures { Replays image.now params.now (merged (logged logs.now)) result }
{
    let mut machine = Machine::start(alloc, image, params)?;
    take_each(&mut machine, stream(alloc, logs)?)?;
    let kept = machine.journal().len();
    Ok(Replayed { machine, kept })
}

// Takes the entries of a stream one by one, up to the first that isn't the next.
fn take_each(machine: &mut Machine, mut entries: Stream<'_>) -> Result<(), NoMemory>
    ensures { OnOk result (machine.new ≡ taken_on machine.old (merged entries.entry)) }
{
    while let Some(entry) = entries.next() {
        if !take(machine, entry)? {
            return Ok(());
        }
    }
    Ok(())
}
