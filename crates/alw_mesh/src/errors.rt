ghost use Rattle.std.specs.Prelude.{◌≡◌};
ghost use Rattle.alw_image.specs.Parameters.{AreParameters};
ghost use Rattle.alw_mesh.specs.Histories.{MachineFits};

use alw_image::{Image, Params};
use alw_num::NoMemory;

/// The most stamps that the nodes of a machine may have together: nodes times the event limit.
pub const MOST_STEPS: u64 = 8_388_608;

/// Why a machine doesn't start.
#[derive(Clone, Copy, Debug, PartialEq, Eq)]
pub enum FitErr {
    /// Its nodes may have `number` stamps together, and `most` is the most.
    DoesNotFit { number: u64, most: u64 },
    NoMemory,
}

impl From<NoMemory> for FitErr {
    ghost use Rattle.alw_mesh.specs.declared.errors.FitErr.TheVariants.{NoMemory};

    ghost from_gives = { λ _ e. e ≡ NoMemory };

    fn from(_e: NoMemory) -> FitErr {
        FitErr::NoMemory
    }
}

/// The nodes of an image may have so many stamps together as the parameters allow: DoesNotFit comes
/// exactly where nodes times the event limit is above `MOST_STEPS`. It takes no memory.
pub fn fit(image: &Image, params: &Params) -> Result<(), FitErr>
    ensures fits { MachineFits image.now params.now result }
    ensures allowed { AreParameters params.now }
{
    let number = u64::from(image.nodes()) * u64::from(params.limit());
    if number > MOST_STEPS {
        return Err(FitErr::DoesNotFit {
            number,
            most: MOST_STEPS,
        });
    }
    Ok(())
}

/// Why a step of a machine isn't taken.
#[derive(Clone, Copy, Debug, PartialEq, Eq)]
pub enum StepErr {
    /// The event isn't enabled within the limit.
    NotEnabled,
    NoMemory,
}

impl From<NoMemory> for StepErr {
    ghost use Rattle.alw_mesh.specs.declared.errors.StepErr.TheVariants.{NoMemory};

    ghost from_gives = { λ _ e. e ≡ NoMemory };

    fn from(_e: NoMemory) -> StepErr {
        StepErr::NoMemory
    }
}
