ghost use Rattle.std.specs.Prelude.{◌≡◌, ◌≤◌, ◌/◌, ◌%◌};

use std::marker::Model;

/// A divisor that many numbers are divided by: a quotient takes one multiplication (Granlund and
/// Montgomery, Division by Invariant Integers using Multiplication, 1994).
#[derive(Clone, Copy)]
pub struct Divisor {
    divisor: u32,
    inverse: u64,
}

impl Model for Divisor {
    ghost use Rattle.std.specs.Prelude.{ℕ, ◌≡◌, ◌≤◌, ◌-◌, ◌/◌, ◌^◌};

    ghost Value = { ℕ };

    ghost view = { λ d. d.divisor };

    ghost invariant = { λ d. (1 ≤ d.divisor) × (d.inverse ≡ (2 ^ 64 - 1) / d.divisor) };

    ghost inverse = { λ d. record { divisor = d; inverse = (2 ^ 64 - 1) / d } };
}

impl Divisor {
    /// This divisor, which isn't 0.
    pub fn of(divisor: u32) -> Divisor
        requires { 1 ≤ divisor }
        ensures { result ≡ divisor }
    {
        Divisor {
            divisor,
            inverse: u64::MAX / u64::from(divisor),
        }
    }

    /// The divisor as a number.
    pub fn value(self) -> u32
        ensures value { result ≡ self }
        ensures some { 1 ≤ result }
    {
        self.divisor
    }

    /// How often the divisor goes into a number.
    #[inline(always)]
    pub fn quotient(self, number: u32) -> u32
        ensures { result ≡ number / self }
    {
        ((u128::from(self.inverse) * (u128::from(number) + 1)) >> 64) as u32
    }

    /// What is left of a number.
    #[inline(always)]
    pub fn remainder(self, number: u32) -> u32
        ensures { result ≡ number % self }
    {
        number - self.quotient(number) * self.divisor
    }
}
