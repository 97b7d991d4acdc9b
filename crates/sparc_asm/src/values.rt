ghost use Rattle.std.specs.Prelude.{◌≡◌, ◌<◌, ◌≤◌, ◌+◌, ◌-◌, ◌*◌, ◌^◌};
ghost use Rattle.sparc_asm.specs.Names.{value_in};
ghost use Rattle.sparc_asm.specs.Values.{term_value, with_value, value_of, above, below, is_between, modulo, quarter};

use crate::names::{Names, Value};
use crate::statements::{Expression, Term};

/// The value of an expression: `plus` less `minus`.
#[derive(Clone, Copy, PartialEq, Eq)]
pub struct Sum {
    pub plus: u64,
    pub minus: u64,
}

impl Sum {
    /// How far the value lies above 0.
    pub fn above(&self) -> u64
        ensures { result ≡ above self.now }
    {
        self.plus.saturating_sub(self.minus)
    }

    /// How far the value lies below 0.
    pub fn below(&self) -> u64
        ensures { result ≡ below self.now }
    {
        self.minus.saturating_sub(self.plus)
    }

    /// The value lies from `-least` to `most`.
    pub fn is_between(&self, least: u64, most: u64) -> bool
        ensures { result ≡ is_between least most self.now }
    {
        self.below() <= least && self.above() <= most
    }

    /// The value modulo a power of two, of which it isn't further below 0.
    pub fn modulo(&self, modulus: u64) -> u64
        requires some { 0 < modulus }
        requires low { below self.now ≤ modulus }
        requires high { above self.now + modulus < 2 ^ 64 }
        ensures value { result ≡ modulo modulus self.now }
        ensures range { result < modulus }
    {
        (self.above() + (modulus - self.below())) % modulus
    }

    /// A quarter of a value that is a multiple of 4.
    pub fn quarter(&self) -> Sum
        ensures { result ≡ quarter self.now }
    {
        Sum {
            plus: self.above() / 4,
            minus: self.below() / 4,
        }
    }
}

// The value of a term in a statement at a place. None where it is a name that stands for nothing.
fn term_value(names: &Names, here: u32, term: &Term) -> Option<Value>
    ensures { result ≡ term_value (value_in names.now) here term.now }
{
    match term {
        Term::Number(number) => Some(Value {
            plus: *number,
            minus: 0,
        }),
        Term::Name(name) => names.get(name),
        Term::Here => Some(Value {
            plus: here,
            minus: 0,
        }),
    }
}

// A sum and a value that is added, or taken away.
fn with_value(minus: bool, value: Value, sum: Sum) -> Sum
    requires plus { sum.plus < 2 ^ 64 - 2 ^ 32 }
    requires minus { sum.minus < 2 ^ 64 - 2 ^ 32 }
    ensures sum { result ≡ with_value minus value sum }
    ensures plus { result.plus < sum.plus + 2 ^ 32 }
    ensures minus { result.minus < sum.minus + 2 ^ 32 }
{
    let (added, taken) = if minus {
        (value.minus, value.plus)
    } else {
        (value.plus, value.minus)
    };
    Sum {
        plus: sum.plus + u64::from(added),
        minus: sum.minus + u64::from(taken),
    }
}

/// The value of an expression in a statement at a place. None exactly where one of its names stands
/// for nothing.
pub fn value_of(names: &Names, here: u32, expression: &Expression) -> Option<Sum>
    ensures { result ≡ value_of (value_in names.now) here expression.now }
{
    let mut sum = Sum { plus: 0, minus: 0 };
    for i in 0..expression.len() {
        let signed = expression.at_ref(i);
        match term_value(names, here, &signed.term) {
            Some(value) => sum = with_value(signed.minus, value, sum),
            None => return None,
        }
    }
    Some(sum)
}
