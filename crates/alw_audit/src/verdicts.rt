/// Where a claim differs from the flat run of its turns. Turns and prints are counted from 0.
#[derive(Clone, Copy, PartialEq, Eq)]
pub enum Difference {
    /// A turn is of a context that isn't Ready.
    Turn { k: u32 },
    /// There are more or fewer prints.
    PrintCount,
    /// Another context printed.
    PrintContext { k: u32 },
    /// Another word was printed.
    Print { k: u32 },
    /// The word at an address is another.
    Memory { addr: u32 },
}

/// What an audit finds: the claim is sound, or the first place at which it differs, with what is claimed
/// there and what is real. For a turn these are the context, and 1 where it has halted or 2 where it has trapped.
#[derive(Clone, Copy, PartialEq, Eq)]
pub enum Verdict {
    Sound,
    Differs {
        place: Difference,
        claimed: u64,
        real: u64,
    },
}
