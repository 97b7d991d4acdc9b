ghost use Rattle.std.specs.Prelude.{◌≡◌, [], ◌∷◌, ◌++◌, OnOk, OnErr};
ghost use Rattle.alw_msg.specs.Lists.{behind};
ghost use Rattle.alw_times.specs.Times.{first_time, is_later};

use alw_num::NoMemory;
use std::alloc::Global;
use std::collections::VecDeque;
use std::marker::Model;

/// Times in order, those of the messages of a link or of the packets of a node. Contracts see the list.
#[derive(Drop)]
pub struct Queue {
    times: VecDeque<u64>,
}

impl Model for Queue {
    ghost use Rattle.std.specs.Prelude.{ℕ, List};

    ghost Value = { List ℕ };

    ghost view = { λ q. q.times.items };
}

impl Queue {
    /// A queue without a time, which takes no memory.
    pub fn empty(alloc: Global) -> Queue
        ensures { result ≡ [] }
    {
        Queue {
            times: VecDeque::new(alloc),
        }
    }

    /// The queue is empty, or its first time is later than this one.
    pub fn is_later(&self, time: u64) -> bool
        ensures { result ≡ is_later self.now time }
    {
        match self.times.front() {
            Some(first) => time < *first,
            None => true,
        }
    }

    /// The first time, and 0 where there is none.
    pub fn first(&self) -> u64
        ensures { result ≡ first_time self.now }
    {
        match self.times.front() {
            Some(time) => *time,
            None => 0,
        }
    }

    /// A time more at the end.
    pub fn push(&mut self, time: u64) -> Result<(), NoMemory>
        ensures ok { OnOk result (self.new ≡ self.old ++ time ∷ []) }
        ensures err { OnErr result (self.new ≡ self.old) }
    {
        self.times.push_back(time)?;
        Ok(())
    }

    /// Takes the first time off, where there is one.
    pub fn pop(&mut self)
        ensures { self.new ≡ behind self.old }
    {
        let _ = self.times.pop_front();
    }
}
