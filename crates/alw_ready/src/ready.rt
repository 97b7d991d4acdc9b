ghost use Rattle.std.specs.Prelude.{◌≡◌, ◌<◌, ◌≤◌, ◌%◌, length, replicate, slice_get, slice_set, Some, IfOk};
ghost use Rattle.alw_ready.specs.Rows.{events_of, no_row, AreDivisors};
ghost use Rattle.alw_ready.specs.Changes.{SenderIsLookedAt};

use crate::rows::{Row, count_with};
use alw_msg::Event;
use alw_num::{Divisor, MOST_NODES, NoMemory, NodeNo, PlaceCounts};
use std::alloc::Global;
use std::marker::Model;

/// Which main events are enabled within the limit, as a row for each node. Contracts see the rows.
#[derive(Drop)]
pub struct Ready {
    rows: Vec<Row>,
    tally: PlaceCounts,
    divisors: Vec<Divisor>,
}

impl Model for Ready {
    ghost use Rattle.std.specs.Prelude.{List};
    ghost use Rattle.alw_ready.specs.declared.rows.Row.{Row};
    ghost use Rattle.alw_ready.specs.Rows.{RowsAreCounted, AreDivisors};

    ghost Value = { List Row };

    ghost view = { λ r. r.rows.items };

    ghost invariant = { λ r. RowsAreCounted r.rows.items r.tally × AreDivisors r.divisors.items };
}

impl Ready {
    /// Rows without events, for so many nodes. It takes all memory that is ever needed.
    pub fn start(alloc: Global, nodes: u32) -> Result<Ready, NoMemory>
        requires { nodes ≤ MOST_NODES }
        ensures { IfOk result (λ ready. ready ≡ replicate nodes no_row) }
    {
        let tally = PlaceCounts::zeros(alloc, nodes)?;
        let mut rows = Vec::with_capacity(alloc, nodes as usize)?;
        for _node in 0..nodes {
            rows.push_reserved(Row::none());
        }
        let divisors = divisors(alloc, 4 * nodes)?;
        Ok(Ready {
            rows,
            tally,
            divisors,
        })
    }

    /// The number of nodes.
    pub fn nodes(&self) -> u16
        ensures { result ≡ length self.now }
    {
        self.rows.len() as u16
    }

    /// The number of events.
    pub fn count(&self) -> u32
        ensures { result ≡ length (events_of self.now) }
    {
        self.tally.total()
    }

    /// Event number k in the schedule's order: by node, and of a node an instruction, an action of the
    /// handler, and deliveries by sender.
    #[inline(always)]
    pub fn nth(&self, k: u32) -> Event
        requires { k < length (events_of self.now) }
        ensures { slice_get (events_of self.now) k ≡ Some result }
    {
        let (place, k) = self.tally.find(k);
        self.rows[place].nth(NodeNo(place as u16), k)
    }

    /// The event that a number draws: all numbers of one remainder by the count draw the same.
    #[inline(always)]
    pub fn drawn(&self, number: u32) -> Event
        requires { 0 < length (events_of self.now) }
        ensures { slice_get (events_of self.now) (number % length (events_of self.now)) ≡ Some result }
    {
        self.nth(self.remainder(number, self.count()))
    }

    // What is left of a number by a count. Counts of at most four events a node have their divisors.
    #[inline(always)]
    fn remainder(&self, number: u32, count: u32) -> u32
        requires { 0 < count }
        ensures { result ≡ number % count }
    {
        match self.divisors.get((count - 1) as usize) {
            Some(divisor) => divisor.remainder(number),
            None => number % count,
        }
    }

    /// The row of a node.
    #[inline(always)]
    pub fn row(&self, node: NodeNo) -> Row
        requires { node.0 < length self.now }
        ensures { slice_get self.now node.0 ≡ Some result }
    {
        self.rows[usize::from(node.0)]
    }

    /// The row of a node becomes this one.
    #[inline(always)]
    pub fn set(&mut self, node: NodeNo, row: Row)
        requires { node.0 < length self.old }
        ensures { self.new ≡ slice_set self.old node.0 row }
    {
        let place = usize::from(node.0);
        let kept = &mut self.rows[place];
        kept.in_time = row.in_time;
        kept.instr = row.instr;
        kept.handle = row.handle;
        kept.senders = row.senders;
        self.tally.set(place, kept.count());
    }

    /// A delivery from a sender may happen or not. All else of the row stays, and its events are counted
    /// on from their number.
    #[inline(always)]
    pub(crate) fn set_sender(&mut self, to: NodeNo, from: NodeNo, may: bool)
        requires here { to.0 < length self.old }
        requires below { from.0 < MOST_NODES }
        ensures { SenderIsLookedAt (λ event. may) from.0 to.0 self.old self.new }
    {
        let place = usize::from(to.0);
        if self.rows[place].senders.has(from) == may {
            return;
        }
        let row = &mut self.rows[place];
        row.senders.put(from, may);
        let count = count_with(row, self.tally.at(place), may);
        self.tally.set(place, count);
    }
}

// The divisors from 1 to this one.
fn divisors(alloc: Global, most: u32) -> Result<Vec<Divisor>, NoMemory>
    ensures { IfOk result (λ made. AreDivisors made.items) }
{
    let mut divisors = Vec::with_capacity(alloc, most as usize)?;
    for count in 0..most {
        divisors.push_reserved(Divisor::of(count + 1));
    }
    Ok(divisors)
}
