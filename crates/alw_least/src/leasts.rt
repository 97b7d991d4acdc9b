ghost use Rattle.std.specs.Prelude.{◌≡◌, ◌<◌, ◌≤◌, ◌+◌, replicate, slice_set, slice_index, length, ℕ};
ghost use Rattle.alw_least.specs.Days.{NothingStands};
ghost use Rattle.alw_least.specs.Leasts.{IsFirstLeast, IsDayOf, IsLeastBelow, AreDated};

use crate::days::{DAYS, Days};
use std::marker::Model;

/// 256 numbers by place, and the first place of the least of them. Those that aren't far above the least stand on
/// days: each place on the day of its number, counted from a first one (a calendar queue: R. Brown, 1988). Contracts
/// see the numbers.
#[derive(Drop)]
pub struct Leasts {
    numbers: [u64; 256],
    first: u64,
    days: Days,
}

impl Model for Leasts {
    ghost use Rattle.std.specs.Prelude.{List, ℕ};
    ghost use Rattle.alw_least.specs.Leasts.{AreOnDays};

    ghost Value = { List ℕ };

    ghost view = { λ l. l.numbers };

    ghost invariant = { λ l. AreOnDays l.numbers l.first l.days };
}

impl Leasts {
    /// Each number is this one.
    pub fn all(number: u64) -> Leasts
        ensures { result ≡ replicate 256 number }
    {
        let numbers = [number; 256];
        let mut days = Days::none();
        date(&mut days, &numbers, number);
        Leasts {
            numbers,
            first: number,
            days,
        }
    }

    /// The number at a place becomes this one.
    #[inline(always)]
    pub fn set(&mut self, place: u8, number: u64)
        ensures { self.new ≡ slice_set self.old place number }
    {
        let at = usize::from(place);
        let before = self.numbers[at];
        if before == number {
            return;
        }
        self.numbers[at] = number;
        if number < self.first {
            self.first = number;
            self.days = Days::none();
            date(&mut self.days, &self.numbers, number);
            return;
        }
        if let Some(day) = day_of(self.first, before) {
            self.days.remove(day, place);
        }
        if let Some(day) = day_of(self.first, number) {
            self.days.add(day, place);
        }
    }

    /// The first place of the least number.
    #[inline(always)]
    pub fn first(&mut self) -> u8
        ensures same { self.new ≡ self.old }
        ensures first { IsFirstLeast self.old result }
    {
        if let Some(place) = self.days.first() {
            return place;
        }
        self.first = least_of(&self.numbers);
        date(&mut self.days, &self.numbers, self.first);
        let Some(place) = self.days.first() else {
            unreachable!();
        };
        place
    }
}

// The day of a number, counted from a first one.
#[inline(always)]
fn day_of(first: u64, number: u64) -> Option<u8>
    requires { first ≤ number }
    ensures { IsDayOf first number result }
{
    let day = number - first;
    if day < u64::from(DAYS) {
        Some(day as u8)
    } else {
        None
    }
}

// Each place stands on the day of its number, counted from a first one, where nothing stood.
fn date(days: &mut Days, numbers: &[u64; 256], first: u64)
    requires none { NothingStands days.old }
    requires after { (k : ℕ) → k < length numbers.now → first ≤ slice_index numbers.now k }
    ensures { AreDated numbers.now first 256 days.new }
{
    for place in 0..DAYS {
        if let Some(day) = day_of(first, numbers[usize::from(place)]) {
            days.add(day, place as u8);
        }
    }
}

// The least of some numbers.
fn least_of(numbers: &[u64; 256]) -> u64
    ensures { IsLeastBelow numbers.now 256 result }
{
    let mut least = numbers[0];
    for place in 1..256 {
        least = least.min(numbers[place]);
    }
    least
}
