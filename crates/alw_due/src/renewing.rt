ghost use Rattle.std.specs.Prelude.{◌≡◌, ◌^◌, ◌<◌, ◌≤◌, IfOk};
ghost use Rattle.alw_image.specs.Images.{node_count};
ghost use Rattle.law_lines.specs.Links.{GoBelow};
ghost use Rattle.alw_ready.specs.Rows.{delivery};
ghost use Rattle.alw_mesh.specs.Histories.{last_sends, may_be_next};
ghost use Rattle.alw_times.specs.Within.{TimesAreWithin};
ghost use Rattle.alw_due.specs.Bests.{AreBests, AreBestsBut, NoneIsPast, NodeIsRenewed, DeliveryIsCompared};

use crate::bests::Bests;
use crate::keys::due_of;
use crate::picking::{best_of, earlier};
use alw_mesh::Machine;
use alw_msg::Event;
use alw_num::{MOST_NODES, NoMemory, NodeNo};
use alw_times::{Clocks, Costs};
use std::alloc::Global;

/// Of each node the first of its events that are due.
pub fn bests_of(
    alloc: Global,
    machine: &Machine,
    clocks: &Clocks,
    costs: &Costs,
) -> Result<Bests, NoMemory>
    requires few { node_count machine.now.image ≤ MOST_NODES }
    requires within { TimesAreWithin (2 ^ 63) clocks.now }
    ensures { IfOk result (λ bests. AreBests machine.now costs.now clocks.now bests) }
{
    let mut bests = Bests::none(alloc)?;
    renew_all(machine, clocks, costs, &mut bests);
    Ok(bests)
}

/// Each node is looked at again.
pub fn renew_all(machine: &Machine, clocks: &Clocks, costs: &Costs, bests: &mut Bests)
    requires few { node_count machine.now.image ≤ MOST_NODES }
    requires past { NoneIsPast (node_count machine.now.image) bests.old }
    requires within { TimesAreWithin (2 ^ 63) clocks.now }
    ensures { AreBests machine.now costs.now clocks.now bests.new }
{
    for n in 0..machine.nodes() {
        renew(machine, clocks, costs, bests, NodeNo(n));
    }
}

/// After an event its own node is looked at again, and of each node that it sent to the delivery from there.
#[inline(always)]
pub fn renew_touched(
    machine: &Machine,
    clocks: &Clocks,
    costs: &Costs,
    bests: &mut Bests,
    node: NodeNo,
)
    requires few { node_count machine.now.image ≤ MOST_NODES }
    requires here { node.0 < node_count machine.now.image }
    requires sends { GoBelow (node_count machine.now.image) (last_sends machine.now) }
    requires but { AreBestsBut machine.now costs.now clocks.now node.0 (last_sends machine.now) bests.old }
    requires within { TimesAreWithin (2 ^ 63) clocks.now }
    ensures { AreBests machine.now costs.now clocks.now bests.new }
{
    renew(machine, clocks, costs, bests, node);
    let sent = machine.last_sent();
    for i in 0..sent.len() {
        let (to, _) = sent.at(i);
        renew_sent(machine, clocks, costs, bests, node, to);
    }
}

// A node is looked at again.
#[inline(always)]
fn renew(machine: &Machine, clocks: &Clocks, costs: &Costs, bests: &mut Bests, node: NodeNo)
    requires few { node_count machine.now.image ≤ MOST_NODES }
    requires here { node.0 < node_count machine.now.image }
    requires within { TimesAreWithin (2 ^ 63) clocks.now }
    ensures { NodeIsRenewed machine.now costs.now clocks.now node.0 bests.old bests.new }
{
    let best = best_of(machine, clocks, costs, node);
    bests.put(node, best);
}

// A delivery, which may have become possible, is compared with what stands for its node.
#[inline(always)]
fn renew_sent(
    machine: &Machine,
    clocks: &Clocks,
    costs: &Costs,
    bests: &mut Bests,
    from: NodeNo,
    to: NodeNo,
)
    requires few { node_count machine.now.image ≤ MOST_NODES }
    requires from { from.0 < node_count machine.now.image }
    requires to { to.0 < node_count machine.now.image }
    requires within { TimesAreWithin (2 ^ 63) clocks.now }
    ensures { DeliveryIsCompared machine.now costs.now clocks.now from.0 to.0 bests.old bests.new }
{
    if may_deliver(machine, from, to) {
        let due = due_of(machine, clocks, costs, Event::Deliver { from, to });
        bests.put(to, earlier(bests.at(to), Some(due)));
    }
}

// A delivery from one node to another may be next.
#[inline(always)]
fn may_deliver(machine: &Machine, from: NodeNo, to: NodeNo) -> bool
    requires few { node_count machine.now.image ≤ MOST_NODES }
    requires from { from.0 < node_count machine.now.image }
    requires to { to.0 < node_count machine.now.image }
    ensures { result ≡ may_be_next machine.now (delivery from.0 to.0) }
{
    let row = machine.row(to);
    row.in_time && row.senders.has(from)
}
