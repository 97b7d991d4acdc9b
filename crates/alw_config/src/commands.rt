//! What the command words ask for.

use alw_image::Params;
use alw_times::Costs;

/// What the simulator is asked to do.
#[derive(Clone, Copy)]
pub enum Asked {
    /// What waits for nobody.
    Alone(Command),
    /// A run by workers on threads, which may wait for each other.
    Workers(Work),
}

/// A run of an image by so many workers, on a machine with these parameters.
#[derive(Clone, Copy)]
pub struct Work {
    pub workers: u32,
    pub params: Params,
    pub write: Form,
}

/// What is done without workers.
#[derive(Clone, Copy)]
pub enum Command {
    /// Assembles a source.
    Asm {
        write: AsmForm,
    },
    /// Runs an image on a machine with these parameters by the schedule of a seed.
    Run {
        seed: u64,
        params: Params,
        write: Form,
    },
    /// Runs an image on a machine with these parameters by the timed schedule of these costs: whatever can
    /// start first does.
    RunByTime {
        costs: Costs,
        params: Params,
        write: TimedForm,
    },
    /// Takes the events of a trace again.
    Replay {
        write: Form,
    },
    /// Checks a claim on the flat machine.
    Audit {
        write: AuditForm,
    },
    /// Makes the workload of a seed: a mesh of so many columns and rows, and `size` operations on each node.
    Gen {
        seed: u64,
        width: u8,
        height: u8,
        size: u32,
    },
    /// Carries the messages of a trace through the routers of its mesh, in the order that a seed draws.
    Route {
        seed: u64,
    },
    /// Writes a checkpoint of the entries of a trace with a stamp of at most `at`.
    Save {
        at: u32,
    },
    /// Goes on from a checkpoint by the schedule of a seed.
    Resume {
        seed: u64,
        evict: u8,
        write: Form,
    },
    /// Searches every order of turns of an image on one memory, up to so many places.
    Outcomes {
        most: u32,
    },
    /// Writes the source of an image.
    Dis,
    /// Tells the times of a trace's run, by these costs.
    Time {
        costs: Costs,
        write: TimeForm,
    },
    /// Takes the turns of a claim, in their order, on a machine with these parameters.
    Schedule {
        params: Params,
    },
}

/// What an assembled source is written as.
#[derive(Clone, Copy, PartialEq, Eq)]
pub enum AsmForm {
    Image,
    Listing,
}

/// What an audit is written as.
#[derive(Clone, Copy, PartialEq, Eq)]
pub enum AuditForm {
    /// Whether the claim is sound, or where it differs.
    Verdict,
    /// What each turn did, a line a turn, and then the verdict.
    Log,
}

/// What the times of a run are written as.
#[derive(Clone, Copy, PartialEq, Eq)]
pub enum TimeForm {
    /// How long accesses, misses and messages waited, and what each node's cycles went to.
    Cycles,
    /// When each event started and finished.
    Moments,
}

/// What a run is written as.
#[derive(Clone, Copy, PartialEq, Eq)]
pub enum Form {
    Report,
    /// The report's content as one object.
    Json,
    /// The image, the parameters and the journal, to be replayed.
    Trace,
    /// The image, the turns, the prints and the memory, to be audited.
    Claim,
    /// The report's first lines.
    Summary,
    /// What each event did, a line an event.
    Log,
    /// Counts by node, line and code word, as one object.
    Profile,
}

/// What a timed run is written as.
#[derive(Clone, Copy, PartialEq, Eq)]
pub enum TimedForm {
    /// As any run is.
    Run(Form),
    /// Its times.
    Time(TimeForm),
}

/// The place of the first refused word, from 0. A missing word has the place behind the last.
#[derive(Clone, Copy, Debug, PartialEq, Eq)]
pub struct WordErr {
    pub at: u32,
}
