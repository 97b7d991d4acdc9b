use alw_num::NodeNo;

/// The input queues of a node's router, named by the side from which a message came; North is the
/// side of the smaller row, and `Local` the node itself.
#[derive(Clone, Copy, PartialEq, Eq)]
pub enum Port {
    Local,
    West,
    East,
    North,
    South,
}

/// What a hop did with a message: it crossed the wire to the next node of its route, or arrived.
#[derive(Clone, Copy, PartialEq, Eq)]
pub enum Hop {
    Crossed { to: NodeNo },
    Arrived { from: NodeNo },
}
