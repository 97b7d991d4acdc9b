ghost use Rattle.std.specs.Prelude.{◌≡◌, ◌<◌, ◌≤◌, ◌+◌, ◌*◌, ◌%◌, ◌^◌, ◌==◌, true, false, IfSome, MatchOption};
ghost use Rattle.alw_num.specs.Lanes.{bytes_in};
ghost use Rattle.sparc_asm.specs.Values.{above, is_between};
ghost use Rattle.sparc_place.specs.Places.{is_size, is_index, is_unit, moved_on, rounded_up};

use alw_num::Width;
use sparc_asm::Sum;

/// A number from 1 to a greatest one.
pub(crate) fn is_size(most: u64, value: &Sum) -> bool
    ensures { result ≡ is_size most value.now }
{
    1 <= value.above() && value.above() <= most
}

/// A number below another.
pub(crate) fn is_index(count: u64, value: &Sum) -> bool
    ensures { result ≡ is_index count value.now }
{
    value.below() == 0 && value.above() < count
}

/// The next multiple of a unit behind a place of shared data. None exactly where it is no unit of `.align`.
pub(crate) fn rounded_up(place: u32, unit: &Sum) -> Option<u32>
    requires { place ≤ 16777216 }
    ensures place { MatchOption result (is_unit unit.now ≡ false) (λ to. (is_unit unit.now ≡ true) × (to ≡ rounded_up place (above unit.now))) }
    ensures range { IfSome result (λ to. to ≤ 16777216) }
{
    if unit.below() != 0 {
        return None;
    }
    match unit.above() {
        1 => Some(place),
        2 => Some((place + 1) / 2 * 2),
        4 => Some((place + 3) / 4 * 4),
        8 => Some((place + 7) / 8 * 8),
        16 => Some((place + 15) / 16 * 16),
        _ => None,
    }
}

/// The place moved on by a value that may be negative. None exactly where that is outside shared data.
pub(crate) fn moved_on(place: u32, by: &Sum, end: u32) -> Option<u32>
    ensures { MatchOption result (is_between 0 end (moved_on place by.now) ≡ false) (λ to. (is_between 0 end (moved_on place by.now) ≡ true) × (to ≡ above (moved_on place by.now))) }
{
    if by.above() > u64::from(end) {
        return None;
    }
    let ahead = u64::from(place) + by.above();
    if ahead < by.below() || ahead - by.below() > u64::from(end) {
        return None;
    }
    Some((ahead - by.below()) as u32)
}

/// How many bytes values of a width take.
pub(crate) fn byte_count(width: Width, count: u32) -> u64
    ensures bytes { result ≡ bytes_in width * count }
    ensures range { result ≤ 4 * count }
{
    match width {
        Width::Byte => u64::from(count),
        Width::Half => 2 * u64::from(count),
        Width::Word => 4 * u64::from(count),
    }
}

/// A place is a multiple of a width's size.
pub(crate) fn is_aligned(width: Width, place: u32) -> bool
    ensures { result ≡ (place % bytes_in width == 0) }
{
    match width {
        Width::Byte => true,
        Width::Half => place % 2 == 0,
        Width::Word => place % 4 == 0,
    }
}
