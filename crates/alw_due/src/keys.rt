ghost use Rattle.std.specs.Prelude.{◌≡◌, ◌^◌, ◌-◌, ◌<◌, IsTrue};
ghost use Rattle.alw_mesh.specs.Histories.{may_be_next};
ghost use Rattle.alw_times.specs.Within.{TimesAreWithin};
ghost use Rattle.alw_due.specs.Due.{start_for, rank_of, arrived_at, sender_of, is_before};
ghost use Rattle.alw_due.specs.Picks.{numbers_of, later_of, IsKeyOf};

use alw_mesh::Machine;
use alw_msg::Event;
use alw_times::{Clocks, Costs};

/// An event that is due: when it would start, and when the message of a delivery arrived. Events are compared
/// by start, node, rank, arrival and sender.
#[derive(Clone, Copy)]
pub struct Due {
    pub start: u64,
    pub arrival: u64,
    pub event: Event,
}

impl Due {
    /// The first of the numbers that differs is less.
    #[inline(always)]
    pub fn is_before(&self, other: &Due) -> bool
        ensures { result ≡ is_before (numbers_of self.now) (numbers_of other.now) }
    {
        self.start < other.start || self.start == other.start && self.is_before_at_once(other)
    }

    // The same where both start at once.
    fn is_before_at_once(&self, other: &Due) -> bool
        ensures { result ≡ is_before (later_of self.now) (later_of other.now) }
    {
        let one = self.event.node().0;
        let two = other.event.node().0;
        if one != two {
            return one < two;
        }
        let first = rank_of(self.event);
        let second = rank_of(other.event);
        if first != second {
            return first < second;
        }
        if self.arrival != other.arrival {
            return self.arrival < other.arrival;
        }
        sender_of(self.event) < sender_of(other.event)
    }
}

/// An event that may be next, with what it is compared by.
#[inline(always)]
pub fn due_of(machine: &Machine, clocks: &Clocks, costs: &Costs, event: Event) -> Due
    requires may { IsTrue (may_be_next machine.now event) }
    requires within { TimesAreWithin (2 ^ 63) clocks.now }
    ensures { IsKeyOf machine.now costs.now clocks.now event result }
{
    Due {
        start: start_of(machine, clocks, costs, event),
        arrival: arrived_at(machine, clocks, event),
        event,
    }
}

// When it would start.
#[inline(always)]
fn start_of(machine: &Machine, clocks: &Clocks, costs: &Costs, event: Event) -> u64
    requires may { IsTrue (may_be_next machine.now event) }
    requires within { TimesAreWithin (2 ^ 63) clocks.now }
    ensures start { result ≡ start_for machine.now costs.now clocks.now event }
    ensures early { result < 2 ^ 64 - 1 }
{
    let slot = match event {
        Event::Instr { node } => machine.current(node),
        _ => None,
    };
    clocks.start(machine.image(), costs, slot, event)
}

fn rank_of(event: Event) -> u8
    ensures { result ≡ rank_of event }
{
    match event {
        Event::Handle { .. } => 0,
        Event::Deliver { .. } => 1,
        Event::Instr { .. } => 2,
        Event::Evict { .. } => 3,
    }
}

// When the message of a delivery arrived.
#[inline(always)]
fn arrived_at(machine: &Machine, clocks: &Clocks, event: Event) -> u64
    ensures { result ≡ arrived_at machine.now.image clocks.now event }
{
    match event {
        Event::Deliver { .. } => clocks.arrival(machine.image(), event),
        _ => 0,
    }
}

fn sender_of(event: Event) -> u16
    ensures { result ≡ sender_of event }
{
    match event {
        Event::Deliver { from, .. } => from.0,
        _ => 0,
    }
}
