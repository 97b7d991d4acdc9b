ghost use Rattle.std.specs.Prelude.{◌≡◌, ◌<◌, ◌≤◌, ◌+◌, ◌-◌, ◌*◌, ◌^◌, length, replicate, slice_index, slice_set, IfOk};
ghost use Rattle.alw_num.specs.PlaceCounts.{sum_before, total, IsPlace, IsInPart};

use crate::memory::NoMemory;
use crate::node_sets::MOST_NODES;
use std::alloc::Global;
use std::marker::Model;

/// Counts by place, at most 256, with the sums of each 4, 16 and 64 places and of all. A number of what
/// they count is found from the largest parts down: three comparisons say which of four parts has it.
#[derive(Drop)]
pub struct PlaceCounts {
    places: u32,
    counts: Vec<u32>,
    fours: [u32; 64],
    sixteens: [u32; 16],
    quarters: [u32; 4],
    total: u32,
}

impl Model for PlaceCounts {
    ghost use Rattle.std.specs.Prelude.{List, ℕ, take};
    ghost use Rattle.alw_num.specs.PlaceCounts.{AreSummed};

    ghost Value = { List ℕ };

    ghost view = { λ t. take t.places t.counts.items };

    ghost invariant = { λ t. AreSummed t.places (take t.places t.counts.items) t.counts.items t.fours t.sixteens t.quarters t.total };
}

impl PlaceCounts {
    /// So many counts of 0.
    pub fn zeros(alloc: Global, places: u32) -> Result<PlaceCounts, NoMemory>
        requires { places ≤ MOST_NODES }
        ensures { IfOk result (λ counts. counts ≡ replicate places 0) }
    {
        let mut counts = Vec::with_capacity(alloc, usize::from(MOST_NODES))?;
        for _place in 0..MOST_NODES {
            counts.push_reserved(0);
        }
        Ok(PlaceCounts {
            places,
            counts,
            fours: [0; 64],
            sixteens: [0; 16],
            quarters: [0; 4],
            total: 0,
        })
    }

    /// The sum of all counts.
    pub fn total(&self) -> u32
        ensures { result ≡ total self.now }
    {
        self.total
    }

    /// The count at a place.
    #[inline(always)]
    pub fn at(&self, place: usize) -> u16
        requires { place < length self.now }
        ensures { result ≡ slice_index self.now place }
    {
        self.counts[place] as u16
    }

    /// The count at a place becomes this one.
    #[inline(always)]
    pub fn set(&mut self, place: usize, count: u16)
        requires { place < length self.old }
        ensures { self.new ≡ slice_set self.old place count }
    {
        let count = u32::from(count);
        let old = self.counts[place];
        self.counts[place] = count;
        self.fours[place / 4] = exchanged(self.fours[place / 4], old, count);
        self.sixteens[place / 16] = exchanged(self.sixteens[place / 16], old, count);
        self.quarters[place / 64] = exchanged(self.quarters[place / 64], old, count);
        self.total = exchanged(self.total, old, count);
    }

    /// The place of number k of what is counted, and its number among those that the place counts.
    #[inline(always)]
    pub fn find(&self, k: u32) -> (usize, u32)
        requires { k < total self.now }
        ensures place { IsPlace self.now k result.0 result.1 }
        ensures within { result.0 < length self.now }
    {
        if self.places == 1 {
            return (0, k);
        }
        let (four, left) = self.four(k);
        one_of_four(&self.counts, 4 * four, left)
    }

    // Which 4 places have number k of what is counted, and its number among what they count.
    #[inline(always)]
    fn four(&self, k: u32) -> (usize, u32)
        requires { k < total self.now }
        ensures part { IsInPart 4 self.now k result.0 result.1 }
        ensures within { result.0 < 64 }
    {
        if self.places <= 4 {
            return (0, k);
        }
        let (sixteen, left) = self.sixteen(k);
        one_of_four(&self.fours, 4 * sixteen, left)
    }

    // Which 16 places have it.
    #[inline(always)]
    fn sixteen(&self, k: u32) -> (usize, u32)
        requires { k < total self.now }
        ensures part { IsInPart 16 self.now k result.0 result.1 }
        ensures within { result.0 < 16 }
    {
        if self.places <= 16 {
            return (0, k);
        }
        let (quarter, left) = self.quarter(k);
        one_of_four(&self.sixteens, 4 * quarter, left)
    }

    // Which 64 places have it.
    #[inline(always)]
    fn quarter(&self, k: u32) -> (usize, u32)
        requires { k < total self.now }
        ensures part { IsInPart 64 self.now k result.0 result.1 }
        ensures within { result.0 < 4 }
    {
        if self.places <= 64 {
            return (0, k);
        }
        one_of_four(&self.quarters, 0, k)
    }
}

// Which of the four sums from a place on has number k, and what is left of k there.
#[inline(always)]
fn one_of_four(sums: &[u32], at: usize, k: u32) -> (usize, u32)
    requires within { at + 4 ≤ length sums.now }
    requires small { sum_before sums.now (at + 4) < 2 ^ 32 }
    requires below { sum_before sums.now at + k < sum_before sums.now (at + 4) }
    ensures place { IsPlace sums.now (sum_before sums.now at + k) result.0 result.1 }
    ensures within { result.0 < at + 4 }
{
    let first = sums[at];
    let second = first + sums[at + 1];
    let third = second + sums[at + 2];
    let (part, left) = part_of(first, second, third, k);
    (at + part, left)
}

// Which of four parts has number k, and what is left of k there, where the first counts so many, the first
// two so many, and the first three. The tests don't wait for each other, and none becomes a branch: the
// part is their sum.
#[inline(always)]
fn part_of(first: u32, second: u32, third: u32, k: u32) -> (usize, u32)
    requires second { first ≤ second }
    requires third { second ≤ third }
    ensures four { result.0 ≤ 3 }
    ensures first { k < first → (result.0 ≡ 0) × (result.1 ≡ k) }
    ensures second { first ≤ k → k < second → (result.0 ≡ 1) × (first + result.1 ≡ k) }
    ensures third { second ≤ k → k < third → (result.0 ≡ 2) × (second + result.1 ≡ k) }
    ensures fourth { third ≤ k → (result.0 ≡ 3) × (third + result.1 ≡ k) }
{
    let part = usize::from(k >= first) + usize::from(k >= second) + usize::from(k >= third);
    let before = if k >= third {
        third
    } else if k >= second {
        second
    } else if k >= first {
        first
    } else {
        0
    };
    (part, k - before)
}

// A sum after one of what it sums up was exchanged for another.
#[inline(always)]
fn exchanged(sum: u32, old: u32, new: u32) -> u32
    ensures { old ≤ sum → sum + new < 2 ^ 32 → result ≡ sum - old + new }
{
    sum.wrapping_add(new.wrapping_sub(old))
}
