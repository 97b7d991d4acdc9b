ghost use Rattle.std.specs.Prelude.{◌≡◌, IfOk, OnOk, IsTrue};
ghost use Rattle.alw_mesh.specs.Histories.{may_be_next, grown};
ghost use Rattle.alw_timing.specs.Timing.{TimesAreKept};
ghost use Rattle.alw_due.specs.Due.{Finishes};
ghost use Rattle.alw_due.specs.Bests.{AreBests};

use crate::bests::Bests;
use crate::renewing::{bests_of, renew_all, renew_touched};
use alw_mesh::Machine;
use alw_model::Ended;
use alw_msg::Event;
use alw_num::NoMemory;
use alw_timing::Timekeeper;
use std::alloc::Global;

/// Takes the events that the timed schedule picks, until an end, and keeps their times.
pub fn finish_by_time(
    alloc: Global,
    machine: &mut Machine,
    keeper: &mut Timekeeper,
) -> Result<Ended, NoMemory>
    requires { TimesAreKept keeper.old machine.old keeper.old }
    ensures { Finishes machine.old keeper.old machine.new keeper.new result }
{
    let mut bests = first_bests(alloc, machine, keeper)?;
    loop {
        if let Some(ended) = machine.ended() {
            return Ok(ended);
        }
        let Some(due) = bests.first() else {
            unreachable!();
        };
        pass(machine, keeper, &mut bests, due.event)?;
    }
}

// Of each node the first of its events that are due, at the beginning.
fn first_bests(alloc: Global, machine: &Machine, keeper: &Timekeeper) -> Result<Bests, NoMemory>
    requires { TimesAreKept keeper.now machine.now keeper.now }
    ensures { IfOk result (λ bests. AreBests machine.now keeper.now.costs keeper.now.times.clocks bests) }
{
    let _run = machine.journal(); // for its clause
    bests_of(alloc, machine, &keeper.times.clocks, &keeper.costs)
}

// An event that may be next happens, its times are kept, and what it touches is looked at again: all nodes,
// where a context halts with it.
#[inline(always)]
fn pass(
    machine: &mut Machine,
    keeper: &mut Timekeeper,
    bests: &mut Bests,
    event: Event,
) -> Result<(), NoMemory>
    requires may { IsTrue (may_be_next machine.old event) }
    requires kept { TimesAreKept keeper.old machine.old keeper.old }
    requires bests { AreBests machine.old keeper.old.costs keeper.old.times.clocks bests.old }
    ensures machine { OnOk result (machine.new ≡ grown machine.old event) }
    ensures kept { OnOk result (TimesAreKept keeper.old machine.new keeper.new) }
    ensures bests { OnOk result (AreBests machine.new keeper.new.costs keeper.new.times.clocks bests.new) }
{
    let _before = machine.journal(); // for its clause
    let halts = keeper.take(machine, event)?;
    let _after = machine.journal(); // for its clause
    let clocks = &keeper.times.clocks;
    if halts {
        renew_all(machine, clocks, &keeper.costs, bests);
    } else {
        renew_touched(machine, clocks, &keeper.costs, bests, event.node());
    }
    Ok(())
}
