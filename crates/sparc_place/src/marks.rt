ghost use Rattle.std.specs.Prelude.{◌≡◌, ◌<◌, ◌≤◌, ◌+◌, ◌^◌, ℕ, [], OnOk, OnErr};
ghost use Rattle.sparc_place.specs.Marks.{is_marked, is_context_marked, any_below};
ghost use Rattle.sparc_place.specs.Places.{with_range, with_start};

use alw_num::NoMemory;
use std::alloc::Global;
use std::marker::Model;

/// A set of numbers, as their marks: a number past the last mark isn't in it. Contracts see the marks.
#[derive(Drop)]
pub struct Marks {
    marks: Vec<bool>,
}

impl Model for Marks {
    ghost use Rattle.std.specs.Prelude.{List, Bool};

    ghost Value = { List Bool };

    ghost view = { λ m. m.marks.items };
}

impl Marks {
    /// No number is in the set.
    pub fn empty(alloc: Global) -> Marks
        ensures { result ≡ [] }
    {
        Marks {
            marks: Vec::new(alloc),
        }
    }

    /// Whether a number is in the set.
    pub fn has(&self, n: usize) -> bool
        ensures { result ≡ is_marked self.now n }
    {
        match self.marks.get(n) {
            Some(mark) => *mark,
            None => false,
        }
    }

    /// Whether one of `count` numbers, from one on, is in the set.
    pub fn has_any(&self, from: u32, count: u32) -> bool
        requires { from + count < 2 ^ 32 }
        ensures { result ≡ any_below count (λ i. is_marked self.now (from + i)) }
    {
        for i in 0..count {
            if self.has((from + i) as usize) {
                return true;
            }
        }
        false
    }

    /// Puts the numbers from one up to another, without that one, into the set.
    pub fn mark(&mut self, from: usize, to: usize) -> Result<(), NoMemory>
        ensures ok { OnOk result ((n : ℕ) → is_marked self.new n ≡ with_range from to (is_marked self.old) n) }
        ensures err { OnErr result ((n : ℕ) → is_marked self.new n ≡ is_marked self.old n) }
    {
        if self.marks.len() < to {
            self.marks.resize(to, false)?;
        }
        for n in from..to {
            self.marks[n] = true;
        }
        Ok(())
    }

    /// Puts the number of a context into the set.
    pub fn mark_context(&mut self, node: u16, slot: u8) -> Result<(), NoMemory>
        ensures ok { OnOk result ((n s : ℕ) → is_context_marked self.new n s ≡ with_start node slot (is_context_marked self.old) n s) }
    {
        let context = 256 * usize::from(node) + usize::from(slot);
        self.mark(context, context + 1)?;
        Ok(())
    }
}
