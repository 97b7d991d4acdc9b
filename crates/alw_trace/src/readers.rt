ghost use Rattle.std.specs.Prelude.{◌≡◌, ◌≢◌, ◌<◌, ◌≤◌, ◌^◌, ◌++◌, ◌∷◌, ◌+◌, ◌*◌, List, [], ℕ, length, IfSome, IfNone, SomeIff, MatchOption};
ghost use Rattle.std.specs.Fmt.{decimal};
ghost use Rattle.alw_text.specs.Numbers.{hex_word};
ghost use Rattle.alw_image.specs.Numbers.{IsWord};
ghost use Rattle.alw_trace.specs.Texts.{byte_digits};
ghost use Rattle.alw_trace.specs.Lines.{IsByte, Lacks};

use alw_text::{hex_value, hex32};

// Bytes of a word: `0x` and eight digits.
const WORD: usize = 10;

// What follows these bytes at the front. None exactly where they don't stand there.
pub fn behind<'a>(text: &'a [u8], front: &[u8]) -> Option<&'a [u8]>
    ensures { MatchOption result ((rest : List ℕ) → text.now ≢ front.now ++ rest) (λ rest. text.now ≡ front.now ++ rest.now) }
{
    text.strip_prefix(front)
}

// The value of a decimal digit. None exactly where the byte is none.
fn digit_at(byte: u8) -> Option<u64>
    ensures some { IfSome result (λ digit. (byte ≡ 48 + digit) × (digit < 10)) }
    ensures none { IfNone result ((digit : ℕ) → digit < 10 → byte ≢ 48 + digit) }
{
    match byte {
        b'0'..=b'9' => Some(u64::from(byte - b'0')),
        _ => None,
    }
}

// The number with a digit more behind it. None exactly where that isn't below 2^64.
fn with_digit(number: u64, digit: u64) -> Option<u64>
    ensures { SomeIff result (number * 10 + digit < 2 ^ 64) (number * 10 + digit) }
{
    number.checked_mul(10)?.checked_add(digit)
}

// The number that is spelled with a byte more. None exactly where no number's spelling goes on with it.
fn longer(number: u64, byte: u8) -> Option<u64>
    ensures some { IfSome result (λ more. decimal more ≡ decimal number ++ byte ∷ []) }
    ensures range { IfSome result (λ more. more < 2 ^ 64) }
    ensures none { IfNone result ((n : ℕ) → (behind : List ℕ) → n < 2 ^ 64 → decimal n ≢ decimal number ++ byte ∷ behind) }
{
    let digit = digit_at(byte)?;
    if number == 0 {
        return None;
    }
    with_digit(number, digit)
}

// The number in decimal before the first such byte, which is no digit, and what follows that byte.
// None exactly where no number stands before one.
pub fn number_before(text: &[u8], stop: u8) -> Option<(u64, &[u8])>
    requires { stop < 48 }
    ensures found { IfSome result (λ read. text.now ≡ decimal read.0 ++ stop ∷ read.1.now) }
    ensures range { IfSome result (λ read. read.0 < 2 ^ 64) }
    ensures none { IfNone result ((n : ℕ) → (rest : List ℕ) → n < 2 ^ 64 → text.now ≢ decimal n ++ stop ∷ rest) }
{
    let (first, behind) = text.split_first()?;
    let mut number = digit_at(*first)?;
    let mut rest = behind;
    while let Some((byte, behind)) = rest.split_first() {
        if *byte == stop {
            return Some((number, behind));
        }
        number = longer(number, *byte)?;
        rest = behind;
    }
    None
}

// The same behind a fixed text.
pub fn number_behind<'a>(text: &'a [u8], front: &[u8], stop: u8) -> Option<(u64, &'a [u8])>
    requires { stop < 48 }
    ensures found { IfSome result (λ read. text.now ≡ front.now ++ (decimal read.0 ++ stop ∷ read.1.now)) }
    ensures range { IfSome result (λ read. read.0 < 2 ^ 64) }
    ensures none { IfNone result ((n : ℕ) → (rest : List ℕ) → n < 2 ^ 64 → text.now ≢ front.now ++ (decimal n ++ stop ∷ rest)) }
{
    let rest = behind(text, front)?;
    let (number, rest) = number_before(rest, stop)?;
    Some((number, rest))
}

// The byte of two lower-case digits, and what follows them. None exactly where they don't stand there.
pub fn byte_at(text: &[u8]) -> Option<(u8, &[u8])>
    ensures found { IfSome result (λ read. text.now ≡ byte_digits read.0 ++ read.1.now) }
    ensures range { IfSome result (λ read. IsByte read.0) }
    ensures none { IfNone result (Lacks IsByte byte_digits text.now) }
{
    let (first, rest) = text.split_first()?;
    let high = hex_value(*first)?;
    let (second, rest) = rest.split_first()?;
    let low = hex_value(*second)?;
    Some(((high * 16 + low) as u8, rest))
}

// The word in hexadecimal before such a byte, and what follows that byte. None exactly where no word
// stands before one.
pub fn word_before(text: &[u8], stop: u8) -> Option<(u64, &[u8])>
    ensures found { IfSome result (λ read. text.now ≡ hex_word read.0 ++ stop ∷ read.1.now) }
    ensures range { IfSome result (λ read. IsWord read.0) }
    ensures none { IfNone result ((n : ℕ) → (rest : List ℕ) → IsWord n → text.now ≢ hex_word n ++ stop ∷ rest) }
{
    if text.len() < WORD {
        return None;
    }
    let (spelled, rest) = text.split_at(WORD);
    let word = hex32(spelled)?;
    let rest = behind(rest, &[stop])?;
    Some((u64::from(word), rest))
}
