ghost use Rattle.std.specs.Prelude.{◌≡◌};

use alw_image::ImageErr;
use alw_num::NoMemory;
use std::alloc::AllocFailed;

/// Why a text isn't read as a trace or a claim: the deciding fault, or want of memory. Lines are
/// counted from 1; a line's form comes before the image, and the image before numbers out of range.
#[derive(Clone, Copy, Debug, PartialEq, Eq)]
pub enum TextErr {
    /// The first line that isn't of its form and spelling, is missing, or follows the last one.
    Syntax { line: u64 },
    /// The bytes of the image are none.
    Image { fault: ImageErr },
    /// The first line with a number that is out of range.
    Range { line: u64 },
    NoMemory,
}

impl From<NoMemory> for TextErr {
    ghost use Rattle.alw_trace.specs.declared.faults.TextErr.TheVariants.{NoMemory};

    ghost from_gives = { λ _ e. e ≡ NoMemory };

    fn from(_e: NoMemory) -> TextErr {
        TextErr::NoMemory
    }
}

impl<T: Drop> From<AllocFailed<T>> for TextErr {
    ghost use Rattle.alw_trace.specs.declared.faults.TextErr.TheVariants.{NoMemory};

    ghost from_gives = { λ _ e. e ≡ NoMemory };

    fn from(_e: AllocFailed<T>) -> TextErr {
        TextErr::NoMemory
    }
}
