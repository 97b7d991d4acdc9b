ghost use Rattle.std.specs.Prelude.{◌≡◌, ◌<◌, ◌≤◌, ◌^◌, ◌∷◌, length, Some, None, MatchOption, IfOk, IfSome};
ghost use Rattle.std.specs.Option.{option_map};
ghost use Rattle.sparc_asm.specs.Expressions.{term_of, minus_of, sum_of, expression_of, is_close_paren, is_close, before_last, in_parens, operand_of, register_of, offset_of, address_of, in_brackets};

use crate::lexemes::Lexeme;
use crate::names::Name;
use crate::statements::{Address, Expression, Signed, Source, Term};
use alw_num::NoMemory;
use std::alloc::Global;

// A number, a name or the dot.
fn term_of<'a>(lexeme: &Lexeme<'a>) -> Option<Term<'a>>
    ensures { result ≡ term_of lexeme.now }
{
    match lexeme {
        Lexeme::Number(number) => Some(Term::Number(*number)),
        Lexeme::Name(name) => Some(Term::Name(Name::of(name.bytes()))),
        Lexeme::Here => Some(Term::Here),
        _ => None,
    }
}

// Whether what follows a sign is taken away.
fn minus_of(lexeme: &Lexeme) -> Option<bool>
    ensures { result ≡ minus_of lexeme.now }
{
    match lexeme {
        Lexeme::Plus => Some(false),
        Lexeme::Minus => Some(true),
        _ => None,
    }
}

// A term, and then any number of signs with a term each.
fn sum_of<'a>(
    alloc: Global,
    minus: bool,
    lexemes: &[Lexeme<'a>],
) -> Result<Option<Expression<'a>>, NoMemory>
    requires { length lexemes.now < 2 ^ 32 }
    ensures { IfOk result (λ sum. sum ≡ sum_of minus lexemes.now) }
{
    let mut terms = Expression::empty(alloc);
    let mut minus = minus;
    let mut at = 0;
    while let Some((first, behind)) = lexemes[at..].split_first() {
        let Some(term) = term_of(first) else {
            return Ok(None);
        };
        terms.push(Signed { minus, term })?;
        let Some((sign, _after)) = behind.split_first() else {
            return Ok(Some(terms));
        };
        match minus_of(sign) {
            Some(next) => minus = next,
            None => return Ok(None),
        }
        at += 2;
    }
    Ok(None)
}

/// The expression that lexemes spell. None exactly where they spell none.
pub fn expression_of<'a>(
    alloc: Global,
    lexemes: &[Lexeme<'a>],
) -> Result<Option<Expression<'a>>, NoMemory>
    requires { length lexemes.now < 2 ^ 32 }
    ensures { IfOk result (λ sum. sum ≡ expression_of lexemes.now) }
{
    match lexemes.split_first() {
        Some((Lexeme::Minus, rest)) => sum_of(alloc, true, rest),
        _ => sum_of(alloc, false, lexemes),
    }
}

fn is_close_paren(lexeme: &Lexeme) -> bool
    ensures { result ≡ is_close_paren lexeme.now }
{
    matches!(lexeme, Lexeme::CloseParen)
}

fn is_close(lexeme: &Lexeme) -> bool
    ensures { result ≡ is_close lexeme.now }
{
    matches!(lexeme, Lexeme::Close)
}

// What stands before a closing parenthesis at the end.
fn before_close_paren<'b, 'a>(lexemes: &'b [Lexeme<'a>]) -> Option<&'b [Lexeme<'a>]>
    ensures inner { MatchOption result (before_last is_close_paren lexemes.now ≡ None) (λ inner. before_last is_close_paren lexemes.now ≡ Some inner.now) }
    ensures shorter { IfSome result (λ inner. length inner.now ≤ length lexemes.now) }
{
    match lexemes.split_last() {
        Some((last, inner)) => {
            if is_close_paren(last) {
                Some(inner)
            } else {
                None
            }
        }
        None => None,
    }
}

// What stands before a closing bracket at the end.
fn before_close<'b, 'a>(lexemes: &'b [Lexeme<'a>]) -> Option<&'b [Lexeme<'a>]>
    ensures inner { MatchOption result (before_last is_close lexemes.now ≡ None) (λ inner. before_last is_close lexemes.now ≡ Some inner.now) }
    ensures shorter { IfSome result (λ inner. length inner.now ≤ length lexemes.now) }
{
    match lexemes.split_last() {
        Some((last, inner)) => { if is_close(last) { Some(inner) } else { None } }
        None => None,
    }
}

/// The expression in parentheses that lexemes spell.
pub fn in_parens<'a>(
    alloc: Global,
    lexemes: &[Lexeme<'a>],
) -> Result<Option<Expression<'a>>, NoMemory>
    requires { length lexemes.now < 2 ^ 32 }
    ensures { IfOk result (λ sum. sum ≡ in_parens lexemes.now) }
{
    match lexemes.split_first() {
        Some((Lexeme::OpenParen, rest)) => match before_close_paren(rest) {
            Some(inner) => expression_of(alloc, inner),
            None => Ok(None),
        },
        _ => Ok(None),
    }
}

/// The register that lexemes spell.
pub fn register_of(lexemes: &[Lexeme]) -> Option<u8>
    ensures { result ≡ register_of lexemes.now }
{
    match lexemes.split_first() {
        Some((Lexeme::Register(number), rest)) if rest.is_empty() => Some(*number),
        _ => None,
    }
}

/// The second operand that lexemes spell.
pub fn operand_of<'a>(alloc: Global, lexemes: &[Lexeme<'a>]) -> Result<Option<Source<'a>>, NoMemory>
    requires { length lexemes.now < 2 ^ 32 }
    ensures { IfOk result (λ operand. operand ≡ operand_of lexemes.now) }
{
    match lexemes.split_first() {
        Some((Lexeme::Register(number), rest)) if rest.is_empty() => {
            Ok(Some(Source::Register(*number)))
        }
        Some((Lexeme::Low, rest)) => Ok(in_parens(alloc, rest)?.map(Source::Low)),
        _ => Ok(expression_of(alloc, lexemes)?.map(Source::Number)),
    }
}

// What stands behind an address's register.
fn offset_of<'a>(alloc: Global, lexemes: &[Lexeme<'a>]) -> Result<Option<Source<'a>>, NoMemory>
    requires { length lexemes.now < 2 ^ 32 }
    ensures { IfOk result (λ offset. offset ≡ offset_of lexemes.now) }
{
    match lexemes.split_first() {
        None => Ok(Some(Source::Register(0))),
        Some((Lexeme::Plus, rest)) => operand_of(alloc, rest),
        Some((Lexeme::Minus, rest)) => less(alloc, rest),
        _ => Ok(None),
    }
}

// A term alone that is taken away.
fn less<'a>(alloc: Global, lexemes: &[Lexeme<'a>]) -> Result<Option<Source<'a>>, NoMemory>
    ensures { IfOk result (λ offset. offset ≡ offset_of (Lexeme.Minus ∷ lexemes.now)) }
{
    match lexemes.split_first() {
        Some((last, rest)) if rest.is_empty() => match term_of(last) {
            Some(term) => {
                let mut terms = Expression::empty(alloc);
                terms.push(Signed { minus: true, term })?;
                Ok(Some(Source::Number(terms)))
            }
            None => Ok(None),
        },
        _ => Ok(None),
    }
}

/// The address that lexemes spell.
pub fn address_of<'a>(
    alloc: Global,
    lexemes: &[Lexeme<'a>],
) -> Result<Option<Address<'a>>, NoMemory>
    requires { length lexemes.now < 2 ^ 32 }
    ensures { IfOk result (λ address. address ≡ address_of lexemes.now) }
{
    match lexemes.split_first() {
        Some((Lexeme::Register(base), rest)) => match offset_of(alloc, rest)? {
            Some(offset) => Ok(Some(Address {
                base: *base,
                offset,
            })),
            None => Ok(None),
        },
        _ => Ok(None),
    }
}

/// The address in brackets that lexemes spell.
pub fn in_brackets<'a>(
    alloc: Global,
    lexemes: &[Lexeme<'a>],
) -> Result<Option<Address<'a>>, NoMemory>
    requires { length lexemes.now < 2 ^ 32 }
    ensures { IfOk result (λ address. address ≡ in_brackets lexemes.now) }
{
    match lexemes.split_first() {
        Some((Lexeme::Open, rest)) => match before_close(rest) {
            Some(inner) => address_of(alloc, inner),
            None => Ok(None),
        },
        _ => Ok(None),
    }
}
