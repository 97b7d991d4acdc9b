//! What a command makes of the bytes that it is handed, or why it makes nothing. It knows no stream, no status
//! and no line on standard error.

ghost use Rattle.std.specs.Prelude.{◌≡◌, []};
ghost use Rattle.alw_answers.specs.Outputs.{IsText, ending_of};

use crate::answers::InputErr;
use alw_audit::Difference;
use alw_image::ImageErr;
use alw_mesh::FitErr;
use alw_model::{Ended, TrapAt};
use alw_msg::{Event, Journal};
use alw_num::{Bytes, NoMemory};
use alw_trace::TextErr;
use sparc_asm::AsmErr;
use std::alloc::Global;

/// How a command ended that was carried out: a run with a trapping turn or at its limit; a claim that isn't
/// sound, with the first place that differs, what is claimed there and what is real; a search of all orders of
/// turns that found a trap, or else one that stopped or found a place from which no end is reached; and all else.
#[derive(Clone, Copy, PartialEq, Eq)]
pub enum Ending {
    Fine,
    Trapped(TrapAt),
    Limit(Event),
    Differs(Difference, u64, u64),
    MayTrap,
    MayNotEnd,
}

/// What a command makes: the text to be written, how it ended, the journal of the run, of the trace or of what a
/// checkpoint keeps, and how many of its first entries come from the merged logs of workers.
#[derive(Drop)]
pub struct Output {
    pub text: Bytes,
    pub ending: Ending,
    pub journal: Journal,
    pub merged: u32,
}

impl Output {
    /// A text without a journal.
    pub fn of_text(alloc: Global, text: Bytes, ending: Ending) -> Output
        ensures { IsText result text ending }
    {
        Output {
            text,
            ending,
            journal: Journal::empty(alloc),
            merged: 0,
        }
    }
}

/// How a run ended.
pub fn ending_of(ended: Ended) -> Ending
    ensures { result ≡ ending_of ended }
{
    match ended {
        Ended::Halted => Ending::Fine,
        Ended::Trapped(at) => Ending::Trapped(at),
        Ended::Limit(event) => Ending::Limit(event),
    }
}

/// Why a command makes nothing: memory was refused, or its bytes have a fault.
#[derive(Clone, Copy, PartialEq, Eq)]
pub enum Refusal {
    NoMemory,
    Fault(InputErr),
}

impl From<NoMemory> for Refusal {
    ghost use Rattle.std.specs.Prelude.{◌≡◌};
    ghost use Rattle.alw_answers.specs.declared.outputs.Refusal.TheVariants.{NoMemory};

    ghost from_gives = { λ _ refusal. refusal ≡ NoMemory };

    fn from(_e: NoMemory) -> Refusal {
        Refusal::NoMemory
    }
}

impl From<AsmErr> for Refusal {
    ghost use Rattle.std.specs.Prelude.{◌≡◌};
    ghost use Rattle.alw_answers.specs.Refusals.{refusal_of_asm};

    ghost from_gives = { λ fault refusal. refusal ≡ refusal_of_asm fault };

    fn from(fault: AsmErr) -> Refusal {
        match fault {
            AsmErr::NoMemory => Refusal::NoMemory,
            fault => Refusal::Fault(InputErr::Asm(fault)),
        }
    }
}

impl From<ImageErr> for Refusal {
    ghost use Rattle.std.specs.Prelude.{◌≡◌};
    ghost use Rattle.alw_answers.specs.Refusals.{refusal_of_image};

    ghost from_gives = { λ fault refusal. refusal ≡ refusal_of_image fault };

    fn from(fault: ImageErr) -> Refusal {
        match fault {
            ImageErr::NoMemory => Refusal::NoMemory,
            fault => Refusal::Fault(InputErr::Image(fault)),
        }
    }
}

impl From<TextErr> for Refusal {
    ghost use Rattle.std.specs.Prelude.{◌≡◌};
    ghost use Rattle.alw_answers.specs.Refusals.{refusal_of_text};

    ghost from_gives = { λ fault refusal. refusal ≡ refusal_of_text fault };

    fn from(fault: TextErr) -> Refusal {
        match fault {
            TextErr::NoMemory => Refusal::NoMemory,
            fault => Refusal::Fault(InputErr::Text(fault)),
        }
    }
}

impl From<FitErr> for Refusal {
    ghost use Rattle.std.specs.Prelude.{◌≡◌};
    ghost use Rattle.alw_answers.specs.Refusals.{refusal_of_fit};

    ghost from_gives = { λ fit refusal. refusal ≡ refusal_of_fit fit };

    fn from(fit: FitErr) -> Refusal {
        match fit {
            FitErr::NoMemory => Refusal::NoMemory,
            FitErr::DoesNotFit { number, most } => {
                Refusal::Fault(InputErr::LimitDoesNotFit(number, most))
            }
        }
    }
}
