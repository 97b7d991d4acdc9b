ghost use Rattle.std.specs.Prelude.{◌≡◌, ◌+◌, ◌≤◌, length, Some, None, IfSome, IfNone};
ghost use Rattle.alw_num.specs.NodeSets.{nodes_of, members, count_nodes};
ghost use Rattle.alw_model.specs.FullMap.{sole, invs};
ghost use Rattle.dir_full.specs.Reactions.{with_sends};

use alw_msg::{Kind, Sends};
use alw_num::{Line, LineNo, NodeNo, NodeSet};

/// The one member of a set that has one.
pub fn sole_member(set: NodeSet) -> Option<NodeNo>
    ensures some { IfSome result (λ n. sole (nodes_of set) ≡ Some n.0) }
    ensures none { IfNone result (sole (nodes_of set) ≡ None) }
{
    let first = set.lowest()?;
    if set.without(first).is_empty() {
        Some(first)
    } else {
        None
    }
}

/// Sends INV of a line to each member of a set, in ascending order.
pub fn invalidate(set: NodeSet, line: LineNo, sent: &mut Sends)
    requires { length sent.old.messages + count_nodes (nodes_of set) ≤ sent.old.room }
    ensures { sent.new ≡ with_sends sent.old line.0 (invs (members (nodes_of set))) }
{
    let mut rest = set;
    while let Some(node) = rest.lowest() {
        sent.push(node, Kind::INV, line, Line::ZERO);
        rest = rest.without(node);
    }
}
