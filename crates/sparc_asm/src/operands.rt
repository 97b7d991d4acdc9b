ghost use Rattle.std.specs.Prelude.{◌≡◌, ◌<◌, ◌≤◌, ◌+◌, ◌-◌, ◌^◌, [], length, position, Some, None, MatchOption, IfOk, IfSome};
ghost use Rattle.sparc_asm.specs.Statements.{is_comma, at_comma, values_of, three_operands, annulled, trap_address, is_y, constant};

use crate::expressions::{address_of, expression_of, operand_of, register_of};
use crate::lexemes::Lexeme;
use crate::statements::{Address, Expression, Signed, Source, Term};
use alw_num::{NoMemory, Sequence};
use std::alloc::Global;

fn is_comma(lexeme: &Lexeme) -> bool
    ensures { result ≡ is_comma lexeme.now }
{
    matches!(lexeme, Lexeme::Comma)
}

// The place of the first comma.
fn comma_at(lexemes: &[Lexeme]) -> Option<usize>
    ensures found { result ≡ position is_comma lexemes.now }
    ensures within { IfSome result (λ at. at < length lexemes.now) }
{
    lexemes.iter().position(|lexeme| is_comma(lexeme))
}

/// What stands before the first comma, and what stands behind it.
pub fn at_comma<'b, 'a>(lexemes: &'b [Lexeme<'a>]) -> Option<(&'b [Lexeme<'a>], &'b [Lexeme<'a>])>
    ensures parts { MatchOption result (at_comma lexemes.now ≡ None) (λ parts. at_comma lexemes.now ≡ Some (parts.0.now, parts.1.now)) }
    ensures shorter { IfSome result (λ parts. length parts.0.now + length parts.1.now < length lexemes.now) }
{
    match comma_at(lexemes) {
        Some(at) => {
            let (front, rest) = lexemes.split_at(at);
            let (_comma, behind) = rest.split_at(1);
            Some((front, behind))
        }
        None => None,
    }
}

/// Expressions between commas, one or more.
pub fn values_of<'a>(
    alloc: Global,
    lexemes: &[Lexeme<'a>],
) -> Result<Option<Sequence<Expression<'a>>>, NoMemory>
    requires { length lexemes.now < 2 ^ 32 - 1 }
    ensures { IfOk result (λ values. values ≡ values_of [] lexemes.now) }
{
    let mut values = Sequence::empty(alloc);
    let mut at = 0;
    while let Some((front, _behind)) = at_comma(&lexemes[at..]) {
        match expression_of(alloc, front)? {
            Some(value) => values.push(value)?,
            None => return Ok(None),
        }
        at += front.len() + 1;
    }
    match expression_of(alloc, &lexemes[at..])? {
        Some(value) => {
            values.push(value)?;
            Ok(Some(values))
        }
        None => Ok(None),
    }
}

/// A register, an operand and a register.
pub fn three_operands<'a>(
    alloc: Global,
    lexemes: &[Lexeme<'a>],
) -> Result<Option<(u8, Source<'a>, u8)>, NoMemory>
    requires { length lexemes.now < 2 ^ 32 }
    ensures { IfOk result (λ operands. operands ≡ three_operands lexemes.now) }
{
    let Some((first, behind)) = at_comma(lexemes) else {
        return Ok(None);
    };
    let Some((second, third)) = at_comma(behind) else {
        return Ok(None);
    };
    let (Some(rs1), Some(rd)) = (register_of(first), register_of(third)) else {
        return Ok(None);
    };
    match operand_of(alloc, second)? {
        Some(operand) => Ok(Some((rs1, operand, rd))),
        None => Ok(None),
    }
}

/// Whether a branch is written with `,a`, and what stands behind that.
pub fn annulled<'b, 'a>(lexemes: &'b [Lexeme<'a>]) -> (bool, &'b [Lexeme<'a>])
    ensures annul { result.0 ≡ (annulled lexemes.now).0 }
    ensures rest { result.1.now ≡ (annulled lexemes.now).1 }
    ensures shorter { length result.1.now ≤ length lexemes.now }
{
    match lexemes.split_first() {
        Some((Lexeme::Comma, behind)) => match behind.split_first() {
            Some((Lexeme::Name(name), rest)) if name.bytes() == b"a".as_slice() => (true, rest),
            _ => (false, lexemes),
        },
        _ => (false, lexemes),
    }
}

/// The address of a trap: an address, or an expression alone, which is added to register 0.
pub fn trap_address<'a>(
    alloc: Global,
    lexemes: &[Lexeme<'a>],
) -> Result<Option<Address<'a>>, NoMemory>
    requires { length lexemes.now < 2 ^ 32 }
    ensures { IfOk result (λ address. address ≡ trap_address lexemes.now) }
{
    match lexemes.split_first() {
        Some((Lexeme::Register(_number), _rest)) => address_of(alloc, lexemes),
        _ => match expression_of(alloc, lexemes)? {
            Some(number) => Ok(Some(Address {
                base: 0,
                offset: Source::Number(number),
            })),
            None => Ok(None),
        },
    }
}

/// `%y` alone.
pub fn is_y(lexemes: &[Lexeme]) -> bool
    ensures { result ≡ is_y lexemes.now }
{
    match lexemes.split_first() {
        Some((Lexeme::Y, rest)) => rest.is_empty(),
        _ => false,
    }
}

/// The expression that is one number.
pub fn constant<'a>(alloc: Global, number: u32) -> Result<Expression<'a>, NoMemory>
    ensures { IfOk result (λ terms. terms ≡ constant number) }
{
    let mut terms = Expression::empty(alloc);
    terms.push(Signed {
        minus: false,
        term: Term::Number(number),
    })?;
    Ok(terms)
}
