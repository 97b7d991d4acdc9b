use crate::nodes::Node;
use alw_model::Did;
use alw_num::Sequence;

/// What the events of a log did, one for each entry.
pub type Dids = Sequence<Did>;

/// The nodes of a machine, by number.
pub type Nodes = Sequence<Node>;
