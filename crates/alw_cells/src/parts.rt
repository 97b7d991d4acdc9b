use crate::logs::{Log, Logs};
use alw_node::{Dids, Node, Nodes};
use alw_num::Sequence;

/// What a cell was of: its node, the node's log, and what each event of the log did, in its order.
#[derive(Drop)]
pub struct CellParts {
    pub node: Node,
    pub log: Log,
    pub dids: Dids,
}

/// What the events of all logs did, by node number.
pub type DidLists = Sequence<Dids>;

/// What workers leave: at place n of each list the log of node n, the node after that log, and what each
/// event of that log did.
#[derive(Drop)]
pub struct Worked {
    pub logs: Logs,
    pub nodes: Nodes,
    pub dids: DidLists,
}
