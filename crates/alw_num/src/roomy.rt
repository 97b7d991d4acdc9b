ghost use Rattle.std.specs.Prelude.{◌≡◌, ◌<◌, ◌≤◌, ◌+◌, ◌-◌, ◌^◌, ◌↔◌, ◌++◌, [], ◌∷◌, length, max, slice_get, Some, IsTrue, OnOk, OnErr};

use crate::memory::NoMemory;
use crate::sequences::Sequence;
use std::alloc::Global;
use std::marker::Model;

/// A list that grows in two steps, so that nothing has changed yet where memory is refused: `reserve`
/// takes room for members, and `push` puts one into it and can't fail. It has fewer than 2^32 members.
/// Contracts see the list and the number of members that there is room for.
#[derive(Drop)]
pub struct Roomy<T> {
    items: Vec<T>,
    room: u32,
}

impl<T> Model for Roomy<T> {
    ghost use Rattle.std.specs.Prelude.{length, vec_capacity, ◌+◌, ◌<◌, ◌≤◌, ◌^◌};
    ghost use Rattle.alw_num.specs.Rooms.{Roomed};

    ghost Value = { Roomed T };

    ghost view = { λ r. record { list = r.items.items; room = r.room } };

    ghost invariant = { λ r. (length r.items.items + r.room ≤ vec_capacity r.items) × (length r.items.items + r.room < 2 ^ 32) };
}

impl<T> Roomy<T> {
    /// The empty list without room, which takes no memory.
    pub fn empty(alloc: Global) -> Self
        ensures { result ≡ record { list = []; room = 0 } }
    {
        Roomy {
            items: Vec::new(alloc),
            room: 0,
        }
    }

    /// A list of its own, without room for more. It takes no memory.
    pub fn of(list: Sequence<T>) -> Self
        ensures { result ≡ record { list = list; room = 0 } }
    {
        Roomy {
            items: list.into_items(),
            room: 0,
        }
    }

    /// The number of members.
    pub fn len(&self) -> u32
        ensures { result ≡ length self.now.list }
    {
        self.items.len() as u32
    }

    pub fn is_empty(&self) -> bool
        ensures { IsTrue result ↔ (self.now.list ≡ []) }
    {
        self.items.is_empty()
    }

    /// Member i.
    pub fn at(&self, i: u32) -> T
    where
        T: Copy,
        requires { i < length self.now.list }
        ensures { slice_get self.now.list i ≡ Some result }
    {
        self.items[i as usize]
    }

    /// The whole list.
    pub fn members(&self) -> &[T]
        ensures { result.now ≡ self.now.list }
    {
        &self.items
    }

    /// Takes room for so many members more, where there isn't as much.
    pub fn reserve(&mut self, count: u32) -> Result<(), NoMemory>
        requires { length self.old.list + count < 2 ^ 32 }
        ensures ok { OnOk result (self.new ≡ record self.old { room = max self.old.room count }) }
        ensures err { OnErr result (self.new ≡ self.old) }
    {
        if self.room < count {
            self.items.reserve(count as usize)?;
            self.room = count;
        }
        Ok(())
    }

    /// Appends one member, without memory.
    pub fn push(&mut self, member: T)
    where
        T: Drop,
        requires { 1 ≤ self.old.room }
        ensures { self.new ≡ record { list = self.old.list ++ member ∷ []; room = self.old.room - 1 } }
    {
        self.items.push_reserved(member);
        self.room -= 1;
    }

    /// The list alone.
    pub fn into_list(self) -> Sequence<T>
        ensures { result ≡ self.list }
    {
        Sequence::of(self.items)
    }
}
