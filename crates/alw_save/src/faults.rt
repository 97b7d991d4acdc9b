ghost use Rattle.std.specs.Prelude.{◌≡◌};

use alw_mesh::FitErr;
use alw_num::NoMemory;
use alw_trace::TextErr;

/// Why a trace isn't cut.
#[derive(Clone, Copy, Debug, PartialEq, Eq)]
pub enum CutErr {
    /// The nodes may have `number` stamps together, and `most` is the most.
    DoesNotFit { number: u64, most: u64 },
    /// The entry at this place, from 0, is the first that isn't legal.
    NotLegal(u32),
    NoMemory,
}

impl From<FitErr> for CutErr {
    ghost use Rattle.std.specs.Prelude.{◌≡◌};
    ghost use Rattle.alw_save.specs.Cuts.{no_cut_of};

    ghost from_gives = { λ fit fault. fault ≡ no_cut_of fit };

    fn from(fit: FitErr) -> CutErr {
        match fit {
            FitErr::DoesNotFit { number, most } => CutErr::DoesNotFit { number, most },
            FitErr::NoMemory => CutErr::NoMemory,
        }
    }
}

impl From<NoMemory> for CutErr {
    ghost use Rattle.alw_save.specs.declared.faults.CutErr.TheVariants.{NoMemory};

    ghost from_gives = { λ _ e. e ≡ NoMemory };

    fn from(_e: NoMemory) -> CutErr {
        CutErr::NoMemory
    }
}

/// Why a checkpoint isn't restored, by the first check that it doesn't pass.
#[derive(Clone, Copy, Debug, PartialEq, Eq)]
pub enum RestoreErr {
    /// The lines up to the last entry aren't those of a trace.
    Text(TextErr),
    /// The nodes may have `number` stamps together, and `most` is the most.
    DoesNotFit { number: u64, most: u64 },
    /// The entry at this place, from 0, is the first that isn't legal.
    NotLegal(u32),
    /// The line of this number is the first that isn't the one that the state gives; it may be missing.
    StateDiffers(u64),
    NoMemory,
}

impl From<TextErr> for RestoreErr {
    ghost use Rattle.std.specs.Prelude.{◌≡◌};
    ghost use Rattle.alw_save.specs.Restoring.{fault_of_text};

    ghost from_gives = { λ text fault. fault ≡ fault_of_text text };

    fn from(text: TextErr) -> RestoreErr {
        match text {
            TextErr::NoMemory => RestoreErr::NoMemory,
            fault => RestoreErr::Text(fault),
        }
    }
}

impl From<CutErr> for RestoreErr {
    ghost use Rattle.std.specs.Prelude.{◌≡◌};
    ghost use Rattle.alw_save.specs.Restoring.{fault_of_cut};

    ghost from_gives = { λ cut fault. fault ≡ fault_of_cut cut };

    fn from(cut: CutErr) -> RestoreErr {
        match cut {
            CutErr::DoesNotFit { number, most } => RestoreErr::DoesNotFit { number, most },
            CutErr::NotLegal(k) => RestoreErr::NotLegal(k),
            CutErr::NoMemory => RestoreErr::NoMemory,
        }
    }
}

impl From<NoMemory> for RestoreErr {
    ghost use Rattle.alw_save.specs.declared.faults.RestoreErr.TheVariants.{NoMemory};

    ghost from_gives = { λ _ e. e ≡ NoMemory };

    fn from(_e: NoMemory) -> RestoreErr {
        RestoreErr::NoMemory
    }
}
