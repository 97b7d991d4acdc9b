ghost use Rattle.std.specs.Prelude.{◌≡◌, ◌<◌, ◌≤◌, IfOk, IfSome, IsTrue, is_some};
ghost use Rattle.std.specs.Option.{option_map};
ghost use Rattle.alw_num.specs.declared.states.Mode.{Mode};
ghost use Rattle.alw_num.specs.Maps.{empty_map, value_at, with_value};
ghost use Rattle.alw_model.specs.Caches.{set_of, copy_at, granted_copy, replaced, fill, invalidate};
ghost use Rattle.alw_cache.specs.Places.{copy_of, evicted_of, seen_of, line_of, ArePlaced};

use crate::places::{Evicted, SetCopy};
use alw_num::{Divisor, Line, LineNo, Mode, NoMemory};
use std::alloc::Global;
use std::marker::Model;

/// The cache of a node (ASPLOS 1991, section 2): direct-mapped, with lines of 16 bytes. Line l
/// belongs in set `l mod sets`, and a set holds one copy or nothing.
#[derive(Drop)]
pub struct Cache {
    sets: Divisor,
    places: Vec<SetCopy>,
}

impl Model for Cache {
    ghost use Rattle.std.specs.Prelude.{◌≡◌, ◌≤◌, length};
    ghost use Rattle.alw_cache.specs.Places.{Copies, map_from, AreInSets};

    ghost Value = { Copies };

    ghost view = { λ c. record { sets = c.sets; copies = map_from 0 c.places.items } };

    ghost invariant = { λ c. (1 ≤ c.sets) × (length c.places.items ≡ c.sets) × AreInSets c.sets c.places.items };
}

impl Cache {
    /// A cache of so many sets, which all hold nothing.
    pub fn room(alloc: Global, sets: u32) -> Result<Cache, NoMemory>
        requires { 1 ≤ sets }
        ensures { IfOk result (λ c. c ≡ record { sets = sets; copies = empty_map }) }
    {
        let places = vec![in alloc; SetCopy::EMPTY; sets as usize]?;
        Ok(Cache {
            sets: Divisor::of(sets),
            places,
        })
    }

    /// The number of sets.
    pub fn sets(&self) -> u32
        ensures sets { result ≡ self.now.sets }
        ensures some { 1 ≤ result }
        ensures placed { ArePlaced self.now }
    {
        self.sets.value()
    }

    /// The set of a line.
    #[inline(always)]
    pub fn set(&self, line: LineNo) -> u32
        ensures set { result ≡ set_of self.now.sets line.0 }
        ensures within { result < self.now.sets }
    {
        self.sets.remainder(line.0)
    }

    /// The mode and the bytes of a line's copy. None exactly where the line is Invalid.
    pub fn look(&self, line: LineNo) -> Option<(Mode, Line)>
        ensures { result ≡ option_map seen_of (copy_at self.now.sets self.now.copies line.0) }
    {
        let copy = self.copy(line)?;
        Some((copy.mode, copy.body))
    }

    /// The line that a set holds. None exactly where it holds nothing.
    pub fn held(&self, set: u32) -> Option<LineNo>
        requires { set < self.now.sets }
        ensures line { result ≡ option_map line_of (value_at self.now.copies set) }
        ensures set { IfSome result (λ line. set_of self.now.sets line.0 ≡ set) }
    {
        let copy = self.standing(set)?;
        Some(copy.line)
    }

    /// The copy that a set holds, as it would leave. None exactly where it holds nothing.
    pub fn standing(&self, set: u32) -> Option<Evicted>
        requires { set < self.now.sets }
        ensures copy { result ≡ option_map evicted_of (value_at self.now.copies set) }
        ensures set { IfSome result (λ copy. set_of self.now.sets copy.line.0 ≡ set) }
    {
        self.places[set as usize].copy()
    }

    /// Puts a copy of a line into its set. Answers the copy of another line that the set held: Some
    /// exactly where it held one.
    pub fn fill(&mut self, line: LineNo, mode: Mode, body: Line) -> Option<Evicted>
        ensures cache { self.new ≡ record self.old { copies = (fill self.old.sets self.old.copies (copy_of line.0 mode body)).0 } }
        ensures replaced { result ≡ option_map evicted_of (replaced self.old.sets self.old.copies line.0) }
    {
        let leaves = self.another(line);
        let set = self.sets.remainder(line.0) as usize;
        self.places[set] = SetCopy {
            line: line.0,
            mode: Some(mode),
            body,
        };
        leaves
    }

    /// Takes the copy of a line out of the cache, and answers it. None exactly where the line is
    /// Invalid; then nothing changes.
    pub fn drop_line(&mut self, line: LineNo) -> Option<Evicted>
        ensures cache { self.new ≡ record self.old { copies = (invalidate self.old.sets self.old.copies line.0 (copy_at self.old.sets self.old.copies line.0)).0 } }
        ensures copy { result ≡ option_map evicted_of (copy_at self.old.sets self.old.copies line.0) }
    {
        let copy = self.copy(line)?;
        let set = self.sets.remainder(line.0) as usize;
        self.places[set] = SetCopy::EMPTY;
        Some(copy)
    }

    /// Gives the Read-Write copy of a line new bytes.
    pub fn write(&mut self, line: LineNo, body: Line)
        requires { IsTrue (is_some (granted_copy self.old.sets self.old.copies line.0 Mode.Write)) }
        ensures { self.new ≡ record self.old { copies = with_value self.old.copies (set_of self.old.sets line.0) (copy_of line.0 Mode.Write body) } }
    {
        let set = self.sets.remainder(line.0) as usize;
        self.places[set].body = body;
    }

    // The copy of a line.
    fn copy(&self, line: LineNo) -> Option<Evicted>
        ensures { result ≡ option_map evicted_of (copy_at self.now.sets self.now.copies line.0) }
    {
        let copy = self.standing(self.sets.remainder(line.0))?;
        if copy.line == line { Some(copy) } else { None }
    }

    // The copy of another line that stands in a line's set.
    fn another(&self, line: LineNo) -> Option<Evicted>
        ensures { result ≡ option_map evicted_of (replaced self.now.sets self.now.copies line.0) }
    {
        let copy = self.standing(self.sets.remainder(line.0))?;
        if copy.line == line { None } else { Some(copy) }
    }
}
