ghost use Rattle.std.specs.Prelude.{◌≡◌, OnOk, OnErr, IfOk};
ghost use Rattle.alw_replay.specs.Replays.{Replays, TakesEntry, may_follow, taken_on};

use alw_image::{Image, Params};
use alw_mesh::{FitErr, Machine, Watch};
use alw_msg::{Entry, Journal};
use alw_num::NoMemory;
use std::alloc::Global;

/// The machine after the longest legal front of some entries, and how many entries that is.
#[derive(Drop)]
pub struct Replayed {
    pub machine: Machine,
    pub kept: u32,
}

/// TakesEntry the events of entries again, from the start of an image, up to the first entry whose event isn't
/// enabled within the limit or whose stamp is another. Refused as `Machine::start` is.
pub fn replay(
    alloc: Global,
    image: &Image,
    params: &Params,
    entries: &Journal,
) -> Result<Replayed, FitErr>
    ensures { Replays image.now params.now entries.now result }
{
    let mut machine = Machine::start(alloc, image, params)?;
    take_all(&mut machine, entries.members(), &mut Nobody)?;
    let kept = machine.journal().len();
    Ok(Replayed { machine, kept })
}

/// The events of entries happen on a machine, up to the first entry that isn't the next, and are told.
pub fn take_all<W: Watch>(
    machine: &mut Machine,
    entries: &[Entry],
    watch: &mut W,
) -> Result<(), NoMemory>
    requires { W.told watch.old machine.old watch.old }
    ensures taken { OnOk result (machine.new ≡ taken_on machine.old entries.now) }
    ensures told { OnOk result (W.told watch.old machine.new watch.new) }
{
    for entry in entries {
        if !is_next(machine, *entry) {
            return Ok(());
        }
        watch.event(machine, *entry)?;
    }
    Ok(())
}

/// TakesEntry an entry where it is the next one, and tells whether it is.
pub fn take(machine: &mut Machine, entry: Entry) -> Result<bool, NoMemory>
    ensures taken { IfOk result (λ taken. TakesEntry machine.old entry machine.new taken) }
    ensures err { OnErr result (machine.new ≡ machine.old) }
{
    if !is_next(machine, entry) {
        return Ok(false);
    }
    machine.take(entry.event)?;
    Ok(true)
}

// An entry is the next one of a machine.
fn is_next(machine: &Machine, entry: Entry) -> bool
    ensures { result ≡ may_follow machine.now entry }
{
    machine.may(entry.event) && machine.stamp(entry.event) == entry.stamp
}

// A watcher that is told nothing.
#[derive(Drop)]
struct Nobody;

impl Watch for Nobody {
    ghost told = { λ _ _ _. Unit {0} };

    fn event(&mut self, machine: &mut Machine, entry: Entry) -> Result<(), NoMemory> {
        machine.take(entry.event)?;
        Ok(())
    }
}
