ghost use Rattle.std.specs.Prelude.{◌≡◌, ◌<◌, ◌-◌, ◌^◌, ◌↔◌, ◌++◌, [], ◌∷◌, length, slice_get, Some, IsTrue, IfOk, OnOk, OnErr, MatchOption};

use crate::memory::NoMemory;
use std::alloc::Global;
use std::marker::Model;

/// A list that grows at its end and has fewer than 2^32 members. Contracts see the list.
///
/// The named list types of the crates above are this type at their member's type: a journal is a
/// sequence of entries, a program's code a sequence of words.
#[derive(Drop)]
pub struct Sequence<T> {
    items: Vec<T>,
}

impl<T> Model for Sequence<T> {
    ghost use Rattle.std.specs.Prelude.{List, length, ◌<◌, ◌^◌};

    ghost Value = { List T };

    ghost view = { λ s. s.items.items };

    ghost invariant = { λ s. length s.items.items < 2 ^ 32 };
}

impl<T> Sequence<T> {
    /// The empty list, which takes no memory.
    pub fn empty(alloc: Global) -> Self
        ensures { result ≡ [] }
    {
        Sequence {
            items: Vec::new(alloc),
        }
    }

    // The list of these members.
    pub(crate) fn of(items: Vec<T>) -> Self
        requires { length items.items < 2 ^ 32 }
        ensures { result ≡ items.items }
    {
        Sequence { items }
    }

    // The members of this list.
    pub(crate) fn into_items(self) -> Vec<T>
        ensures items { result.items ≡ self }
        ensures few { length result.items < 2 ^ 32 }
    {
        self.items
    }

    /// The list of these members, in memory of its own.
    pub fn from_slice(alloc: Global, members: &[T]) -> Result<Self, NoMemory>
    where
        T: Copy,
        requires { length members.now < 2 ^ 32 }
        ensures { IfOk result (λ list. list ≡ members.now) }
    {
        let mut items = Vec::with_capacity(alloc, members.len())?;
        items.extend_from_slice(members)?;
        Ok(Sequence { items })
    }

    /// The number of members.
    pub fn len(&self) -> u32
        ensures { result ≡ length self.now }
    {
        self.items.len() as u32
    }

    pub fn is_empty(&self) -> bool
        ensures { IsTrue result ↔ (self.now ≡ []) }
    {
        self.items.is_empty()
    }

    /// Member i.
    pub fn at(&self, i: u32) -> T
    where
        T: Copy,
        requires { i < length self.now }
        ensures { slice_get self.now i ≡ Some result }
    {
        self.items[i as usize]
    }

    /// Member i, by reference.
    pub fn at_ref(&self, i: u32) -> &T
        requires { i < length self.now }
        ensures { slice_get self.now i ≡ Some result.now }
    {
        &self.items[i as usize]
    }

    /// The whole list.
    pub fn members(&self) -> &[T]
        ensures { result.now ≡ self.now }
    {
        &self.items
    }

    /// Appends one member.
    pub fn push(&mut self, member: T) -> Result<(), NoMemory>
    where
        T: Drop,
        requires { length self.old < 2 ^ 32 - 1 }
        ensures ok { OnOk result (self.new ≡ self.old ++ member ∷ []) }
        ensures err { OnErr result (self.new ≡ self.old) }
    {
        self.items.push(member)?;
        Ok(())
    }

    /// The same list, in memory of its own.
    pub fn copy(&self) -> Result<Self, NoMemory>
    where
        T: Copy,
        ensures { IfOk result (λ copy. copy ≡ self.now) }
    {
        Sequence::from_slice(*self.items.allocator(), &self.items)
    }

    /// Takes the last member off. None exactly where the list is empty.
    pub fn pop(&mut self) -> Option<T>
        ensures { MatchOption result ((self.old ≡ []) × (self.new ≡ [])) (λ last. self.old ≡ self.new ++ last ∷ []) }
    {
        self.items.pop()
    }
}

impl Sequence<u32> {
    /// The whole list of words.
    pub fn words(&self) -> &[u32]
        ensures { result.now ≡ self.now }
    {
        &self.items
    }
}
