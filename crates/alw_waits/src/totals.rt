ghost use Rattle.std.specs.Prelude.{◌≡◌, ◌+◌, IfOk};
ghost use Rattle.alw_waits.specs.Waits.{no_total, with_time, nothing_spent, with_turn, with_miss, with_handler, with_controller};

use alw_num::NoMemory;

/// A number of times in cycles, their sum, and the greatest.
#[derive(Clone, Copy, Debug, PartialEq, Eq)]
pub struct Total {
    pub count: u64,
    pub sum: u64,
    pub most: u64,
}

impl Total {
    /// Of no time.
    pub fn none() -> Total
        ensures { result ≡ no_total }
    {
        Total {
            count: 0,
            sum: 0,
            most: 0,
        }
    }

    /// With a time more. A number that would be 2^64 or more meets `NoMemory`.
    pub fn with(self, time: u64) -> Result<Total, NoMemory>
        ensures { IfOk result (λ total. total ≡ with_time self time) }
    {
        Ok(Total {
            count: sum(self.count, 1)?,
            sum: sum(self.sum, time)?,
            most: self.most.max(time),
        })
    }
}

/// What the cycles of a node went to: turns and misses without their switches, switches, the handler, and beside
/// these the controller.
#[derive(Clone, Copy, Debug, PartialEq, Eq)]
pub struct Spent {
    pub turns: u64,
    pub misses: u64,
    pub switches: u64,
    pub handlers: u64,
    pub controller: u64,
}

impl Spent {
    /// Nothing yet.
    pub fn nothing() -> Spent
        ensures { result ≡ nothing_spent }
    {
        Spent {
            turns: 0,
            misses: 0,
            switches: 0,
            handlers: 0,
            controller: 0,
        }
    }

    /// A turn more, with the switch before it. A number that would be 2^64 or more meets `NoMemory`, here and below.
    pub fn with_turn(self, turn: u64, switch: u64) -> Result<Spent, NoMemory>
        ensures { IfOk result (λ spent. spent ≡ with_turn self turn switch) }
    {
        Ok(Spent {
            turns: sum(self.turns, turn)?,
            switches: sum(self.switches, switch)?,
            ..self
        })
    }

    /// A miss more, with the switch before it.
    pub fn with_miss(self, miss: u64, switch: u64) -> Result<Spent, NoMemory>
        ensures { IfOk result (λ spent. spent ≡ with_miss self miss switch) }
    {
        Ok(Spent {
            misses: sum(self.misses, miss)?,
            switches: sum(self.switches, switch)?,
            ..self
        })
    }

    /// An action of the handler more: its work before it acts, and behind.
    pub fn with_handler(self, before: u64, behind: u64) -> Result<Spent, NoMemory>
        ensures { IfOk result (λ spent. spent ≡ with_handler self before behind) }
    {
        Ok(Spent {
            handlers: sum(sum(self.handlers, before)?, behind)?,
            ..self
        })
    }

    /// The controller was kept for so long.
    pub fn with_controller(self, cost: u64) -> Result<Spent, NoMemory>
        ensures { IfOk result (λ spent. spent ≡ with_controller self cost) }
    {
        Ok(Spent {
            controller: sum(self.controller, cost)?,
            ..self
        })
    }
}

// A sum below 2^64.
fn sum(one: u64, other: u64) -> Result<u64, NoMemory>
    ensures { IfOk result (λ both. both ≡ one + other) }
{
    match one.checked_add(other) {
        Some(both) => Ok(both),
        None => Err(NoMemory),
    }
}
