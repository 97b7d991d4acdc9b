use alw_num::{Line, LineNo, NodeNo, Sequence};

/// The words of a program, from address 0.
pub type Code = Sequence<u32>;

/// Numbers of lines.
pub type LineList = Sequence<u32>;

/// Lines of shared data with their bytes, by line number.
pub type Bodies = Sequence<(LineNo, Line)>;

/// Where contexts start: node, slot and address, by node and slot.
pub type Starts = Sequence<(NodeNo, u8, u32)>;

/// The sizes of a machine.
#[derive(Clone, Copy, PartialEq, Eq)]
pub struct Sizes {
    /// Columns of the mesh, 1 to 16.
    pub width: u8,
    /// Rows of the mesh, 1 to 16.
    pub height: u8,
    /// Contexts of each node, 1 to 4.
    pub contexts: u8,
    /// Lines of shared data that each node is the home of, 1 to 4096.
    pub per_node: u16,
}

/// What an image says, part by part.
#[derive(Drop)]
pub struct Parts {
    /// Columns of the mesh, 1 to 16.
    pub width: u8,
    /// Rows of the mesh, 1 to 16.
    pub height: u8,
    /// Contexts of each node, 1 to 4.
    pub contexts: u8,
    /// Lines of shared data that each node is the home of, 1 to 4096.
    pub per_node: u16,
    /// The program, 1 to 65,536 words, the same on every node.
    pub code: Code,
    /// The lines whose bytes aren't all 0 at the start.
    pub bodies: Bodies,
    /// The contexts that run; one that isn't listed is halted from the beginning.
    pub starts: Starts,
    /// The lines that are Trap-Always.
    pub always: LineList,
}
