ghost use Rattle.std.specs.Prelude.{◌≡◌, ◌<◌, ◌≤◌, ◌-◌, ◌%◌, ◌^◌, ◌++◌, ◌∷◌, [], ℕ, length, slice_index_or, OnOk};
ghost use Rattle.alw_outcomes.specs.Tables.{IsLast, HasDigest, IsOnChain, IsMarkTable, digests_of};

use alw_num::NoMemory;
use std::alloc::Global;
use std::marker::Model;

/// A list of digests, each of which is found by its value. Contracts see the list: a digest's number is
/// its place there.
#[derive(Drop)]
pub struct Table {
    // By a digest's remainder: the last number with this remainder, plus one, or 0 where there is none.
    heads: Vec<u32>,
    marks: Vec<Mark>,
}

/// A digest, and the last number before it with the same remainder, plus one, or 0 where there is none.
#[derive(Clone, Copy, PartialEq, Eq)]
pub struct Mark {
    pub digest: u32,
    pub before: u32,
}

impl Model for Table {
    ghost use Rattle.std.specs.Prelude.{ℕ, List};
    ghost use Rattle.alw_outcomes.specs.Tables.{IsMarkTable, digests_of};

    ghost Value = { List ℕ };

    ghost view = { λ t. digests_of t.marks.items };

    ghost invariant = { λ t. IsMarkTable t.heads.items t.marks.items };
}

impl Table {
    /// A table without digests.
    pub fn empty(alloc: Global) -> Table
        ensures { result ≡ [] }
    {
        Table {
            heads: Vec::new(alloc),
            marks: Vec::new(alloc),
        }
    }

    /// The last number with this digest, plus one, or 0 where there is none.
    pub fn last(&self, digest: u32) -> u32
        ensures { IsLast (HasDigest self.now digest) (length self.now) result }
    {
        let count = self.heads.len();
        if count == 0 {
            return 0;
        }
        let head = self.heads[digest as usize % count];
        along(&self.heads, &self.marks, digest, head)
    }

    /// The last number before this one with the same digest, plus one, or 0 where there is none.
    pub fn before(&self, digest: u32, number: u32) -> u32
        requires within { number < length self.now }
        requires digest { HasDigest self.now digest number }
        ensures { IsLast (HasDigest self.now digest) number result }
    {
        let mark = self.marks[number as usize];
        along(&self.heads, &self.marks, digest, mark.before)
    }

    /// Puts a digest behind the list.
    pub fn add(&mut self, digest: u32) -> Result<(), NoMemory>
        requires { length self.old < 2 ^ 32 - 1 }
        ensures { OnOk result (self.new ≡ self.old ++ digest ∷ []) }
    {
        if self.marks.len() >= self.heads.len() {
            widen(&mut self.heads, &mut self.marks)?;
        }
        push(&mut self.heads, &mut self.marks, digest)?;
        Ok(())
    }
}

// The last number with this digest on a chain from a number on down, plus one, or 0 where there is none.
fn along(heads: &[u32], marks: &[Mark], digest: u32, from: u32) -> u32
    requires table { IsMarkTable heads.now marks.now }
    requires within { from ≤ length marks.now }
    requires chain { 0 < from → IsOnChain (digests_of marks.now) (length heads.now) (digest % length heads.now) (from - 1) }
    ensures { IsLast (HasDigest (digests_of marks.now) digest) from result }
{
    let _length = heads.len(); // for its clause
    let mut rest = from;
    while rest != 0 {
        let mark = marks[rest as usize - 1];
        if mark.digest == digest {
            return rest;
        }
        rest = mark.before;
    }
    0
}

// Puts a digest behind the marks, and before the last one on its chain.
fn push(heads: &mut Vec<u32>, marks: &mut Vec<Mark>, digest: u32) -> Result<(), NoMemory>
    requires table { IsMarkTable heads.old.items marks.old.items }
    requires some { 0 < length heads.old.items }
    requires few { length marks.old.items < 2 ^ 32 - 1 }
    ensures table { IsMarkTable heads.new.items marks.new.items }
    ensures digests { OnOk result (digests_of marks.new.items ≡ digests_of marks.old.items ++ digest ∷ []) }
{
    let chain = digest as usize % heads.len();
    let mark = Mark {
        digest,
        before: heads[chain],
    };
    marks.push(mark)?;
    heads[chain] = marks.len() as u32;
    Ok(())
}

// Makes the heads twice as many, and all chains anew. At last they stay as many as they are.
fn widen(heads: &mut Vec<u32>, marks: &mut Vec<Mark>) -> Result<(), NoMemory>
    requires table { IsMarkTable heads.old.items marks.old.items }
    ensures table { IsMarkTable heads.new.items marks.new.items }
    ensures digests { digests_of marks.new.items ≡ digests_of marks.old.items }
    ensures some { OnOk result (0 < length heads.new.items) }
{
    let length = heads.len();
    if length >= 1_073_741_824 {
        return Ok(());
    }
    let mut wider = vec![in *heads.allocator(); 0; 2 * length + 64]?;
    chain_all(&mut wider, marks);
    *heads = wider;
    Ok(())
}

// Puts all marks on chains, in order of their numbers.
fn chain_all(heads: &mut Vec<u32>, marks: &mut Vec<Mark>)
    requires heads { (k : ℕ) → slice_index_or heads.old.items k 0 ≡ 0 }
    requires some { 0 < length heads.old.items }
    requires few { length marks.old.items < 2 ^ 32 }
    ensures table { IsMarkTable heads.new.items marks.new.items }
    ensures digests { digests_of marks.new.items ≡ digests_of marks.old.items }
    ensures some { 0 < length heads.new.items }
{
    for at in 0..marks.len() {
        let digest = marks[at].digest;
        let chain = digest as usize % heads.len();
        marks[at] = Mark {
            digest,
            before: heads[chain],
        };
        heads[chain] = at as u32 + 1;
    }
}
