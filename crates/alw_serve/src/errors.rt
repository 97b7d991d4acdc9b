use alw_mesh::FitErr;
use alw_num::NoMemory;

/// Why a turn isn't taken.
#[derive(Clone, Copy, Debug, PartialEq, Eq)]
pub enum Hindrance {
    /// Its context isn't Ready, or a context has trapped.
    NotReady,
    /// Another slot of its node runs before it.
    NotCurrent,
    /// No event that it needs is within the limit.
    AboveLimit,
}

/// Why turns aren't taken.
#[derive(Clone, Copy, Debug, PartialEq, Eq)]
pub enum ServeErr {
    /// The nodes may have `number` stamps together, and `most` is the most.
    DoesNotFit { number: u64, most: u64 },
    /// The turn with this number, from 0, isn't taken.
    NotTaken { turn: u32, why: Hindrance },
    /// Behind the turns neither have all contexts halted, nor has one trapped.
    NotFinished,
    NoMemory,
}

impl From<NoMemory> for ServeErr {
    ghost use Rattle.std.specs.Prelude.{◌≡◌};
    ghost use Rattle.alw_serve.specs.declared.errors.ServeErr.TheVariants.{NoMemory};

    ghost from_gives = { λ _ e. e ≡ NoMemory };

    fn from(_e: NoMemory) -> ServeErr {
        ServeErr::NoMemory
    }
}

impl From<FitErr> for ServeErr {
    ghost use Rattle.std.specs.Prelude.{◌≡◌};
    ghost use Rattle.alw_serve.specs.Serving.{err_of};

    ghost from_gives = { λ fit e. e ≡ err_of fit };

    fn from(fit: FitErr) -> ServeErr {
        match fit {
            FitErr::DoesNotFit { number, most } => ServeErr::DoesNotFit { number, most },
            FitErr::NoMemory => ServeErr::NoMemory,
        }
    }
}
