ghost use Rattle.std.specs.Prelude.{◌≡◌, ◌<◌, ◌^◌, IfOk, IfErr, length};
ghost use Rattle.law_order.specs.Orders.{kept_by, later_than};
ghost use Rattle.alw_save.specs.Cuts.{TraceIsSound, IsNoCut, Cuts, LeavesAll, LeavesCut};

use crate::faults::CutErr;
use crate::values::Cut;
use alw_mesh::{Machine, fit};
use alw_msg::{Entry, Journal};
use alw_num::NoMemory;
use alw_replay::{Replayed, replay};
use alw_trace::Trace;
use std::alloc::Global;

/// A trace's journal cut at a stamp. It is refused where the trace's machine doesn't start, and else where
/// an entry of the trace isn't legal.
pub fn cut(alloc: Global, trace: &Trace, at: u32) -> Result<Cut, CutErr>
    ensures { Cuts trace.now at result }
{
    check(alloc, trace)?;
    let entries = trace.journal.members();
    let kept = kept_by(alloc, entries, at)?;
    let rest = later_than(alloc, entries, at)?;
    Ok(Cut { kept, rest })
}

// All entries of a trace are legal, or the refusal of [`cut`].
fn check(alloc: Global, trace: &Trace) -> Result<(), CutErr>
    ensures sound { IfOk result (λ done. TraceIsSound trace.now) }
    ensures few { IfOk result (λ done. length trace.now.journal < 2 ^ 32) }
    ensures refused { IfErr result (λ fault. IsNoCut trace.now fault) }
{
    let _whole = machine_of(alloc, trace)?;
    Ok(())
}

/// The machine after the entries of a trace that a cut at a stamp keeps, with the refusals of [`cut`].
pub fn machine_at(alloc: Global, trace: &Trace, at: u32) -> Result<Machine, CutErr>
    ensures { LeavesCut trace.now at result }
{
    fit(&trace.image, &trace.params)?;
    let all = trace.journal.len();
    let kept = kept_by(alloc, trace.journal.members(), at)?;
    if kept.len() == all {
        return machine_of(alloc, trace);
    }
    check(alloc, trace)?;
    let Replayed { machine, .. } = replay(alloc, &trace.image, &trace.params, &kept)?;
    Ok(machine)
}

/// The machine after all entries of a trace, with the refusals of [`cut`].
pub fn machine_of(alloc: Global, trace: &Trace) -> Result<Machine, CutErr>
    ensures { LeavesAll trace.now result }
{
    let Replayed { machine, kept } = replay(alloc, &trace.image, &trace.params, &trace.journal)?;
    if kept < trace.journal.len() {
        return Err(CutErr::NotLegal(kept));
    }
    Ok(machine)
}

// The entries with at most a stamp.
fn kept_by(alloc: Global, entries: &[Entry], at: u32) -> Result<Journal, NoMemory>
    requires { length entries.now < 2 ^ 32 }
    ensures { IfOk result (λ kept. kept ≡ kept_by at entries.now) }
{
    let mut kept = Journal::empty(alloc);
    for entry in entries {
        if entry.stamp <= at {
            kept.push(*entry)?;
        }
    }
    Ok(kept)
}

// The entries with a higher stamp.
fn later_than(alloc: Global, entries: &[Entry], at: u32) -> Result<Journal, NoMemory>
    requires { length entries.now < 2 ^ 32 }
    ensures { IfOk result (λ rest. rest ≡ later_than at entries.now) }
{
    let mut rest = Journal::empty(alloc);
    for entry in entries {
        if at < entry.stamp {
            rest.push(*entry)?;
        }
    }
    Ok(rest)
}
