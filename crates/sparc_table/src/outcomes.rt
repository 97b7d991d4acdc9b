use alw_num::{LineNo, Mode};

/// What an instruction needs before it can take effect: nothing, a copy of a line in a mode, or a
/// trap of this type instead.
#[derive(Clone, Copy, PartialEq, Eq)]
pub enum Need {
    Nothing,
    Copy { line: LineNo, mode: Mode },
    Trap { tt: u8 },
}

/// How a turn ended. On Miss, Halt and Trap the registers are unchanged.
#[derive(Clone, Copy, PartialEq, Eq)]
pub enum Outcome {
    Done,
    /// There is no copy of the line that grants the mode.
    Miss { line: LineNo, mode: Mode },
    /// The turn prints a word.
    Out { word: u32 },
    Halt,
    /// The turn traps with this type (SPARC V8 manual, chapter 7).
    Trap { tt: u8 },
}
