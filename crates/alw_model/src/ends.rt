use alw_msg::Event;

/// A turn that trapped: its place in the journal, from 0, its node and slot, its PC and the type of
/// the trap (SPARC V8 manual, table 7-1).
#[derive(Clone, Copy, PartialEq, Eq)]
pub struct TrapAt {
    pub entry: u32,
    pub node: u16,
    pub slot: u8,
    pub pc: u32,
    pub tt: u8,
}

/// How a run ended: all contexts halted, the first trapping turn, or the first main event that is
/// enabled but for the limit.
#[derive(Clone, Copy, PartialEq, Eq)]
pub enum Ended {
    Halted,
    Trapped(TrapAt),
    Limit(Event),
}
