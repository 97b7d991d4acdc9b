ghost use Rattle.std.specs.Prelude.{◌≡◌, ◌≤◌, [], ◌∷◌, not, length, IfOk};
ghost use Rattle.alw_num.specs.Weights.{digit};
ghost use Rattle.alw_msg.specs.Statuses.{is_halted, has_trapped};
ghost use Rattle.alw_tally.specs.Remaining.{remains_of};
ghost use Rattle.alw_mesh.specs.Joins.{states_of};

use alw_msg::Status;
use alw_node::{Node, Nodes};
use alw_num::{MOST_NODES, NoMemory};
use alw_tally::Remains;
use std::alloc::Global;

/// The nodes of a list, in their order.
pub fn nodes_of(alloc: Global, nodes: Nodes) -> Result<Vec<Node>, NoMemory>
    ensures { IfOk result (λ items. items.items ≡ nodes) }
{
    let mut left = nodes;
    let mut items = Vec::with_capacity(alloc, left.len() as usize)?;
    while let Some(node) = left.pop() {
        items.push_reserved(node);
    }
    items.reverse();
    Ok(items)
}

/// What remains to be done at some nodes.
pub fn remains_at(nodes: &[Node]) -> Remains
    requires { length nodes.now ≤ MOST_NODES }
    ensures { result ≡ remains_of (states_of nodes.now) }
{
    let mut all = Remains {
        live: 0,
        trapped: 0,
        packets: 0,
    };
    for node in nodes {
        let one = remains_in(node);
        all.live += one.live;
        all.trapped += one.trapped;
        all.packets += one.packets;
    }
    all
}

// What remains to be done at a node.
fn remains_in(node: &Node) -> Remains
    ensures remains { result ≡ remains_of (node.now.state ∷ []) }
    ensures live { result.live ≤ 4 }
    ensures trapped { result.trapped ≤ 4 }
    ensures packets { result.packets ≤ 4096 }
{
    let mut live = 0;
    let mut trapped = 0;
    for slot in 0..node.count() {
        let status = node.status(slot);
        live += live_by(status);
        trapped += trapped_by(status);
    }
    Remains {
        live,
        trapped,
        packets: node.packets(),
    }
}

// 1 where a context that does this hasn't halted, and else 0.
fn live_by(status: Status) -> u32
    ensures one { result ≡ digit (not (is_halted status)) }
    ensures most { result ≤ 1 }
{
    if matches!(status, Status::Halted) {
        0
    } else {
        1
    }
}

// 1 where a context that does this has trapped, and else 0.
fn trapped_by(status: Status) -> u32
    ensures one { result ≡ digit (has_trapped status) }
    ensures most { result ≤ 1 }
{
    if matches!(status, Status::Trapped { .. }) {
        1
    } else {
        0
    }
}
