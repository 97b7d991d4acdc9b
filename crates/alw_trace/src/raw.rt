use alw_num::Bytes;

/// The numbers of a line of a trace, in range or not.
#[derive(Clone, Copy, PartialEq, Eq)]
pub struct RawEntry {
    pub stamp: u64,
    pub event: RawEvent,
}

#[derive(Clone, Copy, PartialEq, Eq)]
pub enum RawEvent {
    Instr { node: u64 },
    Handle { node: u64 },
    Deliver { from: u64, to: u64 },
    Evict { node: u64, set: u64 },
}

/// The numbers of a line of parameters, in range or not.
#[derive(Clone, Copy, PartialEq, Eq)]
pub struct RawParams {
    pub pointers: u64,
    pub sets: u64,
    pub limit: u64,
}

/// What the lines of a trace say, in range or not.
#[derive(Drop)]
pub struct RawTrace {
    /// The bytes of the image.
    pub image: Bytes,
    pub params: RawParams,
    pub entries: Vec<RawEntry>,
}

/// What the lines of a claim say, in range or not.
#[derive(Drop)]
pub struct RawClaim {
    /// The bytes of the image.
    pub image: Bytes,
    /// Contexts, each with a number of turns.
    pub runs: Vec<(u64, u64)>,
    /// Contexts, each with a printed word.
    pub prints: Vec<(u64, u64)>,
    /// Addresses, each with a word.
    pub memory: Vec<(u64, u64)>,
}
