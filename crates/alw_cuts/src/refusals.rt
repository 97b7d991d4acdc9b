ghost use Rattle.std.specs.Prelude.{◌≡◌};
ghost use Rattle.alw_cuts.specs.Refusals.{refusal_of_cut, refusal_of_restore};

use alw_answers::{InputErr, Refusal};
use alw_save::{CutErr, RestoreErr};

/// Why a command isn't carried out whose trace isn't cut.
pub fn refusal_of_cut(cut: CutErr) -> Refusal
    ensures { result ≡ refusal_of_cut cut }
{
    match cut {
        CutErr::NoMemory => Refusal::NoMemory,
        CutErr::DoesNotFit { number, most } => {
            Refusal::Fault(InputErr::LimitDoesNotFit(number, most))
        }
        CutErr::NotLegal(k) => Refusal::Fault(InputErr::NotLegal(k)),
    }
}

/// Why a command isn't carried out whose checkpoint isn't restored.
pub fn refusal_of_restore(fault: RestoreErr) -> Refusal
    ensures { result ≡ refusal_of_restore fault }
{
    match fault {
        RestoreErr::NoMemory => Refusal::NoMemory,
        RestoreErr::Text(fault) => Refusal::Fault(InputErr::Text(fault)),
        RestoreErr::DoesNotFit { number, most } => {
            Refusal::Fault(InputErr::LimitDoesNotFit(number, most))
        }
        RestoreErr::NotLegal(k) => Refusal::Fault(InputErr::NotLegal(k)),
        RestoreErr::StateDiffers(line) => Refusal::Fault(InputErr::StateDiffers(line)),
    }
}
