ghost use Rattle.std.specs.Prelude.{◌≡◌, [], is_some, IfSome, IfOk};
ghost use Rattle.alw_image.specs.Parameters.{Parameters};
ghost use Rattle.alw_mesh.specs.Histories.{begun};
ghost use Rattle.alw_replay.specs.Replays.{IsReplayed};
ghost use Rattle.alw_waits.specs.Waits.{waits_start};
ghost use Rattle.alw_timing.specs.Timing.{TimesAreOf, TimesAreKept, has_waits, has_spans};

use alw_image::{Image, Params};
use alw_mesh::{Machine, Watch};
use alw_msg::{Entry, Journal};
use alw_num::NoMemory;
use alw_replay::take_all;
use alw_times::{Clocks, Costs, Span};
use alw_waits::Waits;
use std::alloc::Global;

/// What is told of a run beside its clocks.
#[derive(Clone, Copy, Debug, PartialEq, Eq)]
pub enum Tells {
    /// Nothing: the clocks alone are kept.
    Nothing,
    /// What accesses, misses and messages waited, and what each node spent.
    Waits,
    /// When each event started and finished.
    Spans,
}

/// The times after a run: its clocks, and what is told beside them.
#[derive(Drop)]
pub struct RunTimes {
    pub clocks: Clocks,
    pub waits: Option<Waits>,
    pub spans: Option<Vec<Span>>,
}

/// The machine after the longest legal front of some entries, how many entries that is, and its times.
#[derive(Drop)]
pub struct TimedRun {
    pub machine: Machine,
    pub kept: u32,
    pub times: RunTimes,
}

/// Takes the events of entries again, as `replay` does but whatever the limit, and keeps their times by these costs,
/// with what is to be told beside them. A sum of times that would be 2^64 or more meets `NoMemory`.
pub fn time(
    alloc: Global,
    image: &Image,
    params: &Params,
    costs: &Costs,
    tells: Tells,
    entries: &Journal,
) -> Result<TimedRun, NoMemory>
    ensures replays { IfOk result (λ run. IsReplayed image.now params.now entries.now run.machine run.kept) }
    ensures times { IfOk result (λ run. TimesAreOf costs.now run.machine run.times) }
    ensures waits { IfOk result (λ run. is_some run.times.waits ≡ has_waits tells) }
    ensures spans { IfOk result (λ run. is_some run.times.spans ≡ has_spans tells) }
{
    let mut machine = Machine::begin(alloc, image, params)?;
    let mut keeper = Timekeeper::of_start(alloc, image, costs, tells)?;
    take_all(&mut machine, entries.members(), &mut keeper)?;
    let kept = machine.journal().len();
    Ok(TimedRun {
        machine,
        kept,
        times: keeper.times,
    })
}

/// One that keeps the times of a run by some costs.
#[derive(Drop)]
pub struct Timekeeper {
    pub costs: Costs,
    pub times: RunTimes,
}

impl Timekeeper {
    /// The times at the beginning of an image's run, with what is to be told beside the clocks.
    pub fn of_start(
        alloc: Global,
        image: &Image,
        costs: &Costs,
        tells: Tells,
    ) -> Result<Timekeeper, NoMemory>
        ensures kept { IfOk result (λ keeper. (parameters : Parameters) → TimesAreKept keeper (begun image.now parameters) keeper) }
        ensures costs { IfOk result (λ keeper. keeper.costs ≡ costs.now) }
        ensures waits { IfOk result (λ keeper. is_some keeper.times.waits ≡ has_waits tells) }
        ensures spans { IfOk result (λ keeper. is_some keeper.times.spans ≡ has_spans tells) }
    {
        Ok(Timekeeper {
            costs: *costs,
            times: RunTimes {
                clocks: Clocks::of_start(alloc, image, costs)?,
                waits: first_waits(alloc, image, tells)?,
                spans: first_spans(alloc, tells),
            },
        })
    }
}

// What has waited at the beginning, where that is told.
fn first_waits(alloc: Global, image: &Image, tells: Tells) -> Result<Option<Waits>, NoMemory>
    ensures told { IfOk result (λ waits. is_some waits ≡ has_waits tells) }
    ensures none { IfOk result (λ waits. IfSome waits (λ so_far. so_far ≡ waits_start image.now)) }
{
    match tells {
        Tells::Waits => Ok(Some(Waits::of_start(alloc, image)?)),
        Tells::Nothing | Tells::Spans => Ok(None),
    }
}

// The spans at the beginning, where they are told.
fn first_spans(alloc: Global, tells: Tells) -> Option<Vec<Span>>
    ensures told { is_some result ≡ has_spans tells }
    ensures none { IfSome result (λ spans. spans.items ≡ []) }
{
    match tells {
        Tells::Spans => Some(Vec::new(alloc)),
        Tells::Nothing | Tells::Waits => None,
    }
}

impl Watch for Timekeeper {
    ghost told = { λ start h now. TimesAreKept start h now };

    fn event(&mut self, machine: &mut Machine, entry: Entry) -> Result<(), NoMemory> {
        let _halts = self.happen(machine, entry.event)?;
        Ok(())
    }
}
