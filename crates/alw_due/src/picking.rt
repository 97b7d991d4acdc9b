ghost use Rattle.std.specs.Prelude.{◌≡◌, ◌^◌, ◌<◌, ℕ};
ghost use Rattle.alw_num.specs.NodeSets.{has_node, nodes_of};
ghost use Rattle.alw_image.specs.Images.{node_count};
ghost use Rattle.alw_ready.specs.Rows.{instr_at, handle_at, delivery};
ghost use Rattle.alw_mesh.specs.Histories.{may_be_next};
ghost use Rattle.alw_times.specs.Within.{TimesAreWithin};
ghost use Rattle.alw_due.specs.Due.{is_due_for};
ghost use Rattle.alw_due.specs.Picks.{earlier, IsBestOf, IsFirstSender};
ghost use Rattle.alw_due.specs.Bests.{IsOf, IsEvent, IsDeliveryTo};

use crate::keys::{Due, due_of};
use alw_mesh::Machine;
use alw_msg::Event;
use alw_num::{NodeNo, NodeSet};
use alw_times::{Clocks, Costs};

/// Of two events the one that comes first.
#[inline(always)]
pub fn earlier(one: Option<Due>, other: Option<Due>) -> Option<Due>
    ensures { result ≡ earlier one other }
{
    match (one, other) {
        (Some(first), Some(second)) => {
            if second.is_before(&first) {
                Some(second)
            } else {
                Some(first)
            }
        }
        (Some(first), None) => Some(first),
        (None, second) => second,
    }
}

/// The first of a node's events that are due.
#[inline(always)]
pub fn best_of(machine: &Machine, clocks: &Clocks, costs: &Costs, node: NodeNo) -> Option<Due>
    requires here { node.0 < node_count machine.now.image }
    requires within { TimesAreWithin (2 ^ 63) clocks.now }
    ensures { IsBestOf machine.now costs.now clocks.now (IsOf machine.now node.0) result }
{
    let row = machine.row(node);
    if !row.in_time {
        return None;
    }
    if !row.handle && row.senders.is_empty() {
        return instr_of(machine, clocks, costs, node, row.instr, row.handle);
    }
    let handler = handler_of(machine, clocks, costs, node, row.handle);
    let delivery = delivery_of(machine, clocks, costs, node, row.senders);
    let instr = instr_of(machine, clocks, costs, node, row.instr, row.handle);
    earlier(earlier(handler, delivery), instr)
}

// An action of a node's handler, where it may act.
#[inline(always)]
fn handler_of(
    machine: &Machine,
    clocks: &Clocks,
    costs: &Costs,
    node: NodeNo,
    may: bool,
) -> Option<Due>
    requires may { may ≡ may_be_next machine.now (handle_at node.0) }
    requires within { TimesAreWithin (2 ^ 63) clocks.now }
    ensures { IsBestOf machine.now costs.now clocks.now (IsEvent machine.now (handle_at node.0)) result }
{
    if !may {
        return None;
    }
    Some(due_of(machine, clocks, costs, Event::Handle { node }))
}

// An instruction of a node, where one is enabled, and no packet interrupts it.
#[inline(always)]
fn instr_of(
    machine: &Machine,
    clocks: &Clocks,
    costs: &Costs,
    node: NodeNo,
    may: bool,
    handles: bool,
) -> Option<Due>
    requires may { may ≡ may_be_next machine.now (instr_at node.0) }
    requires handles { handles ≡ may_be_next machine.now (handle_at node.0) }
    requires here { node.0 < node_count machine.now.image }
    requires within { TimesAreWithin (2 ^ 63) clocks.now }
    ensures { IsBestOf machine.now costs.now clocks.now (IsEvent machine.now (instr_at node.0)) result }
{
    if !may {
        return None;
    }
    if !is_due(machine, clocks, costs, node, handles) {
        return None;
    }
    Some(due_of(machine, clocks, costs, Event::Instr { node }))
}

// No packet interrupts a node's instruction: the handler may not act, or none has come by its start.
#[inline(always)]
fn is_due(machine: &Machine, clocks: &Clocks, costs: &Costs, node: NodeNo, handles: bool) -> bool
    requires handles { handles ≡ may_be_next machine.now (handle_at node.0) }
    requires here { node.0 < node_count machine.now.image }
    requires within { TimesAreWithin (2 ^ 63) clocks.now }
    ensures { result ≡ is_due_for machine.now costs.now clocks.now (instr_at node.0) }
{
    let event = Event::Instr { node };
    !handles || clocks.is_due(machine.image(), costs, machine.current(node), event)
}

// Of the deliveries to a node that may be next the one that comes first.
#[inline(always)]
fn delivery_of(
    machine: &Machine,
    clocks: &Clocks,
    costs: &Costs,
    to: NodeNo,
    senders: NodeSet,
) -> Option<Due>
    requires senders { (from : ℕ) → has_node (nodes_of senders) from ≡ may_be_next machine.now (delivery from to.0) }
    requires within { TimesAreWithin (2 ^ 63) clocks.now }
    ensures { IsBestOf machine.now costs.now clocks.now (IsDeliveryTo machine.now to.0) result }
{
    let from = first_sender(machine, clocks, to, senders)?;
    Some(due_of(machine, clocks, costs, Event::Deliver { from, to }))
}

// Of some senders to a node the one whose message arrived first, and of several the lowest.
#[inline(always)]
fn first_sender(machine: &Machine, clocks: &Clocks, to: NodeNo, senders: NodeSet) -> Option<NodeNo>
    ensures { IsFirstSender machine.now.image clocks.now to.0 (nodes_of senders) result }
{
    let mut left = senders;
    let mut first = left.lowest()?;
    left.remove(first);
    if left.is_empty() {
        return Some(first);
    }
    let mut arrival = clocks.arrival(machine.image(), Event::Deliver { from: first, to });
    while let Some(from) = left.lowest() {
        left.remove(from);
        let other = clocks.arrival(machine.image(), Event::Deliver { from, to });
        if other < arrival {
            first = from;
            arrival = other;
        }
    }
    Some(first)
}
