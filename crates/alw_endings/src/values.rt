use alw_image::Sizes;
use alw_msg::{Prints, Stretches, Words};
use alw_num::Sequence;

/// What turns on one memory can come to, in whatever order they are taken: the sizes of the image, how
/// many places the search kept, whether it ended by itself, and what it found.
#[derive(Drop)]
pub struct Outcomes {
    pub sizes: Sizes,
    /// The places that the search kept.
    pub places: u64,
    /// The search went on from every place that it found.
    pub is_complete: bool,
    pub halts: HaltEnds,
    pub traps: TrapEnds,
    pub stuck: StuckRun,
}

/// An end at which all contexts have halted.
#[derive(Drop)]
pub struct HaltEnd {
    /// The printed words, each with its context: by context, and of one in the order in which it printed.
    pub prints: Prints,
    /// The words of shared data that aren't 0, each with its address, by address.
    pub memory: Words,
    /// Turns from the start that lead there, in stretches.
    pub runs: Stretches,
}

/// An end at which the turn of a context traps (SPARC V8 manual, table 7-1).
#[derive(Drop)]
pub struct TrapEnd {
    pub context: u32,
    /// The address of the instruction.
    pub pc: u32,
    /// The type of the trap.
    pub tt: u8,
    /// Turns from the start, in stretches, of which the last one traps.
    pub runs: Stretches,
}

/// Whether turns lead to a place from which no end can be reached.
#[derive(Drop)]
pub enum StuckRun {
    No,
    /// They do: turns from the start that lead to one, in stretches.
    Yes(Stretches),
    /// The search stopped.
    Unknown,
}

/// Ends at which all contexts have halted, by prints and memory.
pub type HaltEnds = Sequence<HaltEnd>;

/// Ends at which a turn traps, by context, PC and type.
pub type TrapEnds = Sequence<TrapEnd>;
