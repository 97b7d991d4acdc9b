ghost use Rattle.std.specs.Prelude.{◌≡◌, ◌≢◌, ◌<◌, ◌≤◌, ◌^◌, ◌↔◌, ◌+◌, ◌*◌, ◌++◌, List, ℕ, length, slice_index, IsTrue, IfSome, IfNone, MatchOption, SomeIff};
ghost use Rattle.std.specs.Fmt.{decimal};
ghost use Rattle.std.specs.Str.Parse.{IsNumeral, digits_value};
ghost use Rattle.std.specs.Char.{digit_value};
ghost use Rattle.alw_text.specs.Numbers.{hex_digit, hex_digits, hex_word};

/// The number that digits write in a base from 2 to 36, of either case, leading zeros allowed. None
/// exactly where the bytes aren't digits of a number below 2^64.
pub fn digits(bytes: &[u8], base: u32) -> Option<u64>
    requires low { 2 ≤ base }
    requires high { base ≤ 36 }
    ensures { SomeIff result (IsNumeral base bytes.now × (digits_value base bytes.now < 2 ^ 64)) (digits_value base bytes.now) }
{
    if bytes.is_empty() {
        return None;
    }
    let mut number: u64 = 0;
    for byte in bytes {
        match with_digit(number, *byte, base) {
            Some(longer) => number = longer,
            None => return None,
        }
    }
    Some(number)
}

// The number with one more digit behind it. None exactly where the byte is no digit in the base or
// the number would reach 2^64.
fn with_digit(number: u64, byte: u8, base: u32) -> Option<u64>
    requires low { 2 ≤ base }
    requires high { base ≤ 36 }
    ensures { SomeIff result ((digit_value byte < base) × (number * base + digit_value byte < 2 ^ 64)) (number * base + digit_value byte) }
{
    let digit = char::from(byte).to_digit(base)?;
    number
        .checked_mul(u64::from(base))?
        .checked_add(u64::from(digit))
}

/// The number that bytes spell in decimal, without a leading zero (`0` itself is allowed). None
/// exactly where they are no such spelling of a number below 2^64.
pub fn decimal(bytes: &[u8]) -> Option<u64>
    ensures found { IfSome result (λ n. bytes.now ≡ decimal n) }
    ensures range { IfSome result (λ n. n < 2 ^ 64) }
    ensures none { IfNone result ((n : ℕ) → n < 2 ^ 64 → bytes.now ≢ decimal n) }
{
    match digits(bytes, 10) {
        Some(number) if !has_leading_zero(bytes) => Some(number),
        _ => None,
    }
}

fn has_leading_zero(bytes: &[u8]) -> bool
    ensures { IsTrue result ↔ ((1 < length bytes.now) × (slice_index bytes.now 0 ≡ 48)) }
{
    bytes.len() > 1 && bytes[0] == b'0'
}

/// The number of a lower-case hexadecimal digit. None exactly where the byte is none.
pub fn hex_value(byte: u8) -> Option<u32>
    ensures found { IfSome result (λ n. byte ≡ hex_digit n) }
    ensures range { IfSome result (λ n. n < 16) }
    ensures none { IfNone result ((n : ℕ) → n < 16 → byte ≢ hex_digit n) }
{
    match byte {
        b'0'..=b'9' => Some(u32::from(byte - b'0')),
        b'a'..=b'f' => Some(u32::from(byte - b'a') + 10),
        _ => None,
    }
}

/// The word that bytes spell as `0x` and eight lower-case hexadecimal digits. None exactly where
/// they are no such spelling.
pub fn hex32(bytes: &[u8]) -> Option<u32>
    ensures found { IfSome result (λ n. bytes.now ≡ hex_word n) }
    ensures range { IfSome result (λ n. n < 2 ^ 32) }
    ensures none { IfNone result ((n : ℕ) → n < 2 ^ 32 → bytes.now ≢ hex_word n) }
{
    let digits = behind(bytes, b"0x")?;
    if digits.len() != 8 {
        return None;
    }
    let mut word = 0;
    for byte in digits {
        match hex_value(*byte) {
            Some(value) => word = word * 16 + value,
            None => return None,
        }
    }
    Some(word)
}

// What follows this prefix of the bytes. None exactly where they don't begin with it.
fn behind<'a>(bytes: &'a [u8], prefix: &[u8]) -> Option<&'a [u8]>
    ensures { MatchOption result ((rest : List ℕ) → bytes.now ≢ prefix.now ++ rest) (λ rest. bytes.now ≡ prefix.now ++ rest.now) }
{
    bytes.strip_prefix(prefix)
}
