use alw_num::Line;
use sparc_table::{Need, Regs};

/// What is read of a context before its turn: its registers, what its instruction needs, and the bytes of the line
/// that this needs.
#[derive(Clone, Copy)]
pub struct SlotBefore {
    pub regs: Regs,
    pub need: Need,
    pub body: Line,
}
