ghost use Rattle.std.specs.Prelude.{◌≡◌, ◌<◌, ◌≤◌, ◌^◌, cond, length, slice_index, Some, None, MatchOption, IfOk, IfSome};
ghost use Rattle.std.specs.Option.{option_map};
ghost use Rattle.sparc_asm.specs.Lexemes.{banked, short_register, long_register, two_characters, percented, number_in, behind_0x, literal, marked, worded, lexeme_of, lexeme_before, lexemes_of};

use crate::names::Name;
use alw_num::{NoMemory, Sequence};
use alw_text::digits;
use sparc_lex::{TokenKind, Tokens, clear};

/// What a token says.
#[derive(Drop)]
pub enum Lexeme<'a> {
    /// A name, or the name of an instruction.
    Name(Name<'a>),
    /// A name with a dot before it.
    Directive(Name<'a>),
    /// The dot alone.
    Here,
    Number(u32),
    Register(u8),
    /// `%y`.
    Y,
    /// `%hi`.
    High,
    /// `%lo`.
    Low,
    Comma,
    Colon,
    Plus,
    Minus,
    Open,
    Close,
    OpenParen,
    CloseParen,
}

/// The lexemes of a line.
pub type Lexemes<'a> = Sequence<Lexeme<'a>>;

// A bank's register with this digit.
fn banked(start: u8, digit: u8) -> Option<u8>
    requires { start ≤ 24 }
    ensures register { result ≡ banked start digit }
    ensures range { IfSome result (λ r. r < 32) }
{
    match digit {
        b'0'..=b'7' => Some(start + (digit - b'0')),
        _ => None,
    }
}

// The register with a name of two characters: a bank and a number, `sp` or `fp`.
fn short_register(bank: u8, digit: u8) -> Option<u8>
    ensures register { result ≡ short_register bank digit }
    ensures range { IfSome result (λ r. r < 32) }
{
    match bank {
        b'g' => banked(0, digit),
        b'o' => banked(8, digit),
        b'l' => banked(16, digit),
        b'i' => banked(24, digit),
        b'r' if digit.is_ascii_digit() => Some(digit - b'0'),
        b's' if digit == b'p' => Some(14),
        b'f' if digit == b'p' => Some(30),
        _ => None,
    }
}

// The register `%r10` to `%r31` with these two digits.
fn long_register(tens: u8, units: u8) -> Option<u8>
    ensures register { result ≡ long_register tens units }
    ensures range { IfSome result (λ r. r < 32) }
{
    if !(b'1'..=b'3').contains(&tens) || !units.is_ascii_digit() {
        return None;
    }
    let number = 10 * (tens - b'0') + (units - b'0');
    if number < 32 { Some(number) } else { None }
}

// What stands behind a `%`.
fn percented(text: &[u8]) -> Option<Lexeme<'static>>
    ensures { result ≡ percented text.now }
{
    match text.len() {
        2 if text[1] == b'y' => Some(Lexeme::Y),
        3 => two_characters(text[1], text[2]),
        4 if text[1] == b'r' => register(long_register(text[2], text[3])),
        _ => None,
    }
}

// `%hi`, `%lo` or a register.
fn two_characters(first: u8, second: u8) -> Option<Lexeme<'static>>
    ensures { result ≡ two_characters first second }
{
    match (first, second) {
        (b'h', b'i') => Some(Lexeme::High),
        (b'l', b'o') => Some(Lexeme::Low),
        _ => register(short_register(first, second)),
    }
}

fn register(number: Option<u8>) -> Option<Lexeme<'static>>
    ensures { result ≡ option_map Lexeme.Register number }
{
    match number {
        Some(number) => Some(Lexeme::Register(number)),
        None => None,
    }
}

// The number that digits write, up to 4294967295.
fn number_in(base: u32, text: &[u8]) -> Option<u32>
    requires low { 2 ≤ base }
    requires high { base ≤ 36 }
    ensures { result ≡ number_in base text.now }
{
    match digits(text, base) {
        Some(number) if number <= 0xffff_ffff => Some(number as u32),
        _ => None,
    }
}

// What follows `0x`.
fn behind_0x(text: &[u8]) -> Option<&[u8]>
    ensures { MatchOption result (behind_0x text.now ≡ None) (λ rest. behind_0x text.now ≡ Some rest.now) }
{
    let (first, rest) = text.split_first()?;
    let (second, digits) = rest.split_first()?;
    if *first == b'0' && *second == b'x' {
        Some(digits)
    } else {
        None
    }
}

// A number in hexadecimal, or in decimal.
fn literal(text: &[u8]) -> Option<u32>
    ensures { result ≡ literal text.now }
{
    match behind_0x(text) {
        Some(digits) => number_in(16, digits),
        None => number_in(10, text),
    }
}

// One of `,` `:` `+` `-` `[` `]` `(` `)`.
fn marked(byte: u8) -> Option<Lexeme<'static>>
    ensures { result ≡ marked byte }
{
    match byte {
        b',' => Some(Lexeme::Comma),
        b':' => Some(Lexeme::Colon),
        b'+' => Some(Lexeme::Plus),
        b'-' => Some(Lexeme::Minus),
        b'[' => Some(Lexeme::Open),
        b']' => Some(Lexeme::Close),
        b'(' => Some(Lexeme::OpenParen),
        b')' => Some(Lexeme::CloseParen),
        _ => None,
    }
}

// A name, or one with a dot before it.
fn worded(text: &[u8]) -> Option<Lexeme<'_>>
    ensures { result ≡ worded text.now }
{
    match text.split_first() {
        None => None,
        Some((b'.', rest)) => Some(Lexeme::Directive(Name::of(rest))),
        Some(_) => Some(Lexeme::Name(Name::of(text))),
    }
}

// What a token with this text says. None where it says nothing.
fn lexeme_of(kind: TokenKind, text: &[u8]) -> Option<Lexeme<'_>>
    ensures { result ≡ lexeme_of kind text.now }
{
    match kind {
        TokenKind::Word => worded(text),
        TokenKind::Dot => Some(Lexeme::Here),
        TokenKind::Number => number(literal(text)),
        TokenKind::Percent => percented(text),
        TokenKind::Mark => mark_of(text),
    }
}

fn number(value: Option<u32>) -> Option<Lexeme<'static>>
    ensures { result ≡ option_map Lexeme.Number value }
{
    match value {
        Some(value) => Some(Lexeme::Number(value)),
        None => None,
    }
}

fn mark_of(text: &[u8]) -> Option<Lexeme<'static>>
    ensures { result ≡ marked (slice_index text.now 0) }
{
    if text.is_empty() {
        None
    } else {
        marked(text[0])
    }
}

/// What tokens of a source say takes the place of a list's members. False where one of them says nothing.
pub fn lexemes_of<'a>(
    source: &'a [u8],
    tokens: &Tokens,
    lexemes: &mut Lexemes<'a>,
) -> Result<bool, NoMemory>
    ensures lexemes { IfOk result (λ all. cond all (Some lexemes.new) None ≡ lexemes_of source.now tokens.now) }
    ensures count { length lexemes.new ≤ length tokens.now }
{
    clear(lexemes);
    for i in 0..tokens.len() {
        let token = tokens.at(i);
        match lexeme_of(token.kind, token.text(source)) {
            Some(lexeme) => lexemes.push(lexeme)?,
            None => return Ok(false),
        }
    }
    Ok(true)
}
