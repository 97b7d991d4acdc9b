use alw_num::NoMemory;

/// Why a source has no image. The first pass that finds a fault decides; in it the first line, and
/// on that line the fault that stands first here.
#[derive(Clone, Copy, Debug, PartialEq, Eq)]
pub enum AsmErr {
    /// The line can't be cut, or isn't of a statement's form.
    Syntax { line: u32 },
    /// A name that no line defines, or no earlier line where one is needed.
    UnknownName { line: u32 },
    /// A name, a size, a start or a Trap-Always line again, or a size too late.
    Redefined { line: u32 },
    /// A value or a place outside its range.
    Range { line: u32 },
    /// An address that isn't a multiple of what it has to be.
    Unaligned { line: u32 },
    /// A data byte that is written twice.
    Overlap { line: u32 },
    NoMemory,
}

/// What is wrong with a line in the second or the third pass.
#[derive(Clone, Copy, PartialEq, Eq)]
pub enum Fault {
    UnknownName,
    Redefined,
    Range,
    Unaligned,
    Overlap,
}

impl From<NoMemory> for AsmErr {
    ghost use Rattle.sparc_asm.specs.declared.faults.AsmErr.TheVariants.{NoMemory};
    ghost use Rattle.std.specs.Prelude.{◌≡◌};

    ghost from_gives = { λ _ e. e ≡ NoMemory };

    fn from(_e: NoMemory) -> AsmErr {
        AsmErr::NoMemory
    }
}
