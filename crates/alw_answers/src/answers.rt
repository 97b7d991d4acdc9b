ghost use Rattle.std.specs.Prelude.{◌≡◌};
ghost use Rattle.alw_answers.specs.Outputs.{status_of};
ghost use Rattle.alw_answers.specs.Tasks.{IsNothing};

use alw_audit::Difference;
use alw_config::WordErr;
use alw_image::ImageErr;
use alw_model::TrapAt;
use alw_msg::{Event, Journal};
use alw_trace::TextErr;
use sparc_asm::AsmErr;
use std::alloc::Global;

/// The most bytes that an input may have.
pub const MOST_INPUT: usize = 268_435_456;

/// Why an input was refused: it is too long; it is no source, no image, or no text of a trace or a claim; nodes
/// times the event limit are above the most that a machine takes, with both numbers; there are more workers
/// than nodes, with both numbers; an entry of a trace, counted from 0, is the first that isn't legal; no end
/// holds after its last entry, or after the turns of a claim; a line of a checkpoint, counted from 1, isn't the one
/// that its entries leave; or a turn of a claim, counted from 0, isn't taken, for its context isn't ready, another
/// one of its node runs, or an event of it has a stamp above the limit.
#[derive(Clone, Copy, Debug, PartialEq, Eq)]
pub enum InputErr {
    TooLong,
    Asm(AsmErr),
    Image(ImageErr),
    Text(TextErr),
    NotLegal(u32),
    Unfinished,
    LimitDoesNotFit(u64, u64),
    StateDiffers(u64),
    WorkersDoNotFit(u64, u64),
    NotReady(u32),
    NotCurrent(u32),
    AboveLimit(u32),
}

/// The cause of an answer. A claim that differs from the flat run of its turns does so first at a place, with
/// what is claimed there and what is real. Of an image some order of turns may trap; or none was found that does,
/// and it isn't known that an end can be reached from each place.
#[derive(Clone, Copy, PartialEq, Eq)]
pub enum Cause {
    Fine,
    Words(WordErr),
    Input(InputErr),
    Trapped(TrapAt),
    Limit(Event),
    ReadFault,
    WriteFault,
    NoMemory,
    Differs(Difference, u64, u64),
    MayTrap,
    MayNotEnd,
}

/// What the program answers: its exit status, the cause, the journal of the run or replay that was made, and
/// how many of its entries come from the merged logs of workers.
#[derive(Drop)]
pub struct Done {
    pub status: u8,
    pub cause: Cause,
    pub journal: Journal,
    pub merged: u32,
    ghost of_cause: { status ≡ status_of cause },
}

impl Done {
    /// An answer without a run.
    pub fn without(alloc: Global, cause: Cause) -> Done
        ensures cause { result.cause ≡ cause }
        ensures nothing { IsNothing result.journal result.merged }
    {
        Done::after(cause, Journal::empty(alloc), 0)
    }

    /// The answer to a run with this journal, of which so many first entries come from workers.
    pub fn after(cause: Cause, journal: Journal, merged: u32) -> Done
        ensures cause { result.cause ≡ cause }
        ensures journal { result.journal ≡ journal }
        ensures merged { result.merged ≡ merged }
    {
        Done {
            status: status_of(&cause),
            cause,
            journal,
            merged,
        }
    }
}

// The exit status of a cause.
fn status_of(cause: &Cause) -> u8
    ensures { result ≡ status_of cause.now }
{
    match cause {
        Cause::Fine => 0,
        Cause::Words(_) => 2,
        Cause::Input(_) => 3,
        Cause::Trapped(_) => 4,
        Cause::Limit(_) => 5,
        Cause::ReadFault => 6,
        Cause::WriteFault => 7,
        Cause::NoMemory => 8,
        Cause::Differs(..) => 9,
        Cause::MayTrap => 4,
        Cause::MayNotEnd => 5,
    }
}
