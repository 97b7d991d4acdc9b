ghost use Rattle.std.specs.Prelude.{◌≡◌, ◌+◌, ◌-◌, ◌^◌, ◌<◌, cond, slice_get, Some, IsTrue, IsFalse};
ghost use Rattle.alw_num.specs.NodeSets.{nodes_of, members, count_nodes};
ghost use Rattle.alw_num.specs.Weights.{digit};
ghost use Rattle.alw_ready.specs.Rows.{row_events, row_count, no_row};

use alw_msg::Event;
use alw_num::{NodeNo, NodeSet};

/// What is kept of a node: which of its main events are enabled within the limit.
#[derive(Clone, Copy, PartialEq, Eq)]
pub struct Row {
    /// The node's clock leaves room for a next stamp within the limit, or every context of the
    /// machine has halted. Where neither is so, the row has no events, whatever else it says.
    pub in_time: bool,
    /// An instruction is enabled.
    pub instr: bool,
    /// An action of the trap handler is enabled.
    pub handle: bool,
    /// The nodes from which a delivery is enabled.
    pub senders: NodeSet,
}

impl Row {
    /// A row without events.
    pub fn none() -> Row
        ensures { result ≡ no_row }
    {
        Row {
            in_time: false,
            instr: false,
            handle: false,
            senders: NodeSet { words: [0; 4] },
        }
    }

    /// The number of its events.
    pub fn count(&self) -> u16
        ensures { result ≡ row_count self.now }
    {
        if self.in_time {
            one_if(self.instr) + one_if(self.handle) + self.senders.count() as u16
        } else {
            0
        }
    }

    /// Event number k of the row of a node: an instruction, an action of the handler, and deliveries
    /// by sender.
    pub fn nth(&self, node: NodeNo, k: u32) -> Event
        requires { k < row_count self.now }
        ensures { slice_get (row_events node.0 self.now) k ≡ Some result }
    {
        let handle = u32::from(one_if(self.instr));
        let deliver = handle + u32::from(one_if(self.handle));
        if k < handle {
            Event::Instr { node }
        } else if k < deliver {
            Event::Handle { node }
        } else {
            Event::Deliver {
                from: sender(self.senders, k - deliver),
                to: node,
            }
        }
    }
}

// The number of a row's events once a sender came or went, from the number before.
#[inline(always)]
pub(crate) fn count_with(row: &Row, count: u16, came: bool) -> u16
    requires few { count < 2 ^ 16 - 1 }
    requires some { IsTrue row.now.in_time → IsFalse came → 0 < count }
    ensures { result ≡ cond row.now.in_time (cond came (count + 1) (count - 1)) 0 }
{
    if !row.in_time {
        0
    } else if came {
        count + 1
    } else {
        count - 1
    }
}

// 1 where a test holds, and else 0.
fn one_if(test: bool) -> u16
    ensures { result ≡ digit test }
{
    if test { 1 } else { 0 }
}

// Sender number k. The first is found without a search.
fn sender(senders: NodeSet, k: u32) -> NodeNo
    requires { k < count_nodes (nodes_of senders) }
    ensures { slice_get (members (nodes_of senders)) k ≡ Some result.0 }
{
    match senders.lowest() {
        Some(first) if k == 0 => first,
        _ => senders.nth(k),
    }
}
