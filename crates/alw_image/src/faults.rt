ghost use Rattle.std.specs.Prelude.{◌≡◌};

use alw_num::NoMemory;

/// Why bytes are no image: each fault with the byte that it is at, by the checks in their order (see
/// `specs/Faults.antt`), or want of memory.
#[derive(Clone, Copy, Debug, PartialEq, Eq)]
pub enum ImageErr {
    /// The first bytes aren't `ALEW`.
    Magic { at: u32 },
    /// The version is neither 1 nor 2.
    Version { at: u32 },
    /// The bytes end too early: `at` is their number.
    Short { at: u32 },
    /// There are more bytes than the image has: `at` is the image's end.
    Trailing { at: u32 },
    /// A number is outside its range.
    Range { at: u32 },
    /// A data line, a start or a Trap-Always line isn't above the one before it.
    Order { at: u32 },
    NoMemory,
}

impl From<NoMemory> for ImageErr {
    ghost use Rattle.alw_image.specs.declared.faults.ImageErr.TheVariants.{NoMemory};

    ghost from_gives = { λ _ e. e ≡ NoMemory };

    fn from(_e: NoMemory) -> ImageErr {
        ImageErr::NoMemory
    }
}
