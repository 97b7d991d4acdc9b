ghost use Rattle.std.specs.Prelude.{◌≡◌, ◌<◌, ◌≤◌, ◌*◌, ◌^◌, true, Some, None, MatchResult};
ghost use Rattle.sparc_asm.specs.Names.{value_in};
ghost use Rattle.sparc_asm.specs.Values.{value_of, above, below, modulo};
ghost use Rattle.sparc_assemble.specs.Assembly.{is_datum, datum, modulus_of, start_fault};
ghost use Rattle.sparc_assemble.specs.Data.{is_unknown_in, AnswersValues};

use crate::refusals::Refusal;
use alw_num::{Sequence, Width};
use sparc_asm::{Expression, Fault, Names, Sum, value_of};
use std::alloc::Global;

// A value of data within its width, with or without a sign.
fn is_datum(width: Width, value: &Sum) -> bool
    ensures { result ≡ is_datum width value.now }
{
    match width {
        Width::Byte => value.is_between(128, 255),
        Width::Half => value.is_between(32768, 65535),
        Width::Word => value.is_between(0x8000_0000, 0xffff_ffff),
    }
}

// A value of data modulo how many values its width has.
fn within(width: Width, value: &Sum) -> u32
    requires { is_datum width value.now ≡ true }
    ensures { result ≡ modulo (modulus_of width) value.now }
{
    match width {
        Width::Byte => value.modulo(1 << 8) as u32,
        Width::Half => value.modulo(1 << 16) as u32,
        Width::Word => value.modulo(1 << 32) as u32,
    }
}

// One of the values has a name that stands for nothing.
fn is_unknown_in(names: &Names, here: u32, values: &Sequence<Expression>) -> bool
    ensures { result ≡ is_unknown_in (value_in names.now) here values.now }
{
    for i in 0..values.len() {
        match value_of(names, here, values.at_ref(i)) {
            Some(_value) => continue,
            None => return true,
        }
    }
    false
}

/// The values of data at a place, or the fault.
pub fn data_values(
    alloc: Global,
    names: &Names,
    here: u32,
    width: Width,
    values: &Sequence<Expression>,
) -> Result<Sequence<u32>, Refusal>
    ensures { AnswersValues (value_in names.now) here width values.now result }
{
    if is_unknown_in(names, here, values) {
        return Err(Refusal::Fault(Fault::UnknownName));
    }
    let mut all = Sequence::empty(alloc);
    for i in 0..values.len() {
        match value_of(names, here, values.at_ref(i)) {
            Some(value) if is_datum(width, &value) => all.push(within(width, &value))?,
            Some(_value) => return Err(Refusal::Fault(Fault::Range)),
            None => return Err(Refusal::Fault(Fault::UnknownName)),
        }
    }
    Ok(all)
}

/// The address of a start, of one of `count` code words, or the fault.
pub fn start_address(
    names: &Names,
    here: u32,
    count: u32,
    address: &Expression,
) -> Result<u32, Fault>
    requires { count ≤ 65536 }
    ensures { MatchResult result (λ found. (start_fault count (value_of (value_in names.now) here address.now) ≡ None) × (found ≡ datum (value_in names.now) here (2 ^ 32) address.now)) (λ fault. start_fault count (value_of (value_in names.now) here address.now) ≡ Some fault) }
{
    let Some(value) = value_of(names, here, address) else {
        return Err(Fault::UnknownName);
    };
    if value.below() != 0 || value.above() >= 4 * u64::from(count) {
        return Err(Fault::Range);
    }
    if value.above() % 4 != 0 {
        return Err(Fault::Unaligned);
    }
    Ok(value.above() as u32)
}
