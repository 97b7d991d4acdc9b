ghost use Rattle.std.specs.Prelude.{◌≡◌, ◌<◌, ◌≤◌, ◌+◌, ◌-◌, ◌==◌, ◌^◌, ◌++◌, position, length, take, drop, Some, Ok, Err, IfOk, IfSome};
ghost use Rattle.std.specs.Option.{option_map};
ghost use Rattle.sparc_lex.specs.Cut.{hex_run, number_length, token_from, cut_from, is_fit, code_of, line_tokens, tokens_of, Answers, AppendsLine, LineIsCut};
ghost use Rattle.sparc_lex.specs.Characters.{is_allowed};
ghost use Rattle.std.specs.List.{list_all};

use crate::characters::{Class, begins_name, is_allowed, is_mark};
use crate::kinds::{LexErr, Token, TokenKind, Tokens};
use crate::lists::clear;
use alw_text::{Span, line_at};
use std::alloc::Global;

// The most bytes of a line.
const MOST_BYTES: usize = 1000;

// Behind a `0`: how many hexadecimal digits a number has behind its `x`, at most 8.
fn hex_run(bytes: &[u8]) -> usize
    ensures run { result ≡ hex_run bytes.now }
    ensures within { 0 < result → result < length bytes.now }
{
    match bytes.split_first() {
        Some((b'x', digits)) => Class::Hexadecimal.run(digits).min(8),
        _ => 0,
    }
}

// The length of a number with this first digit: `0x` and hexadecimal digits, or decimal digits.
fn number_length(first: u8, rest: &[u8]) -> usize
    ensures length { result ≡ number_length first rest.now }
    ensures some { 1 ≤ result }
    ensures within { result ≤ length rest.now + 1 }
{
    let digits = hex_run(rest);
    if first == b'0' && digits != 0 {
        2 + digits
    } else {
        1 + Class::Digit.run(rest)
    }
}

// The kind and the length of the token that begins with a byte, and goes on in the bytes behind it.
// None where none begins.
fn token_from(first: u8, rest: &[u8]) -> Option<(TokenKind, usize)>
    ensures token { result ≡ token_from first rest.now }
    ensures some { IfSome result (λ token. 1 ≤ token.1) }
    ensures within { IfSome result (λ token. token.1 ≤ length rest.now + 1) }
{
    if begins_name(first) {
        return Some((TokenKind::Word, 1 + Class::NamePart.run(rest)));
    }
    match first {
        b'.' => Some(match Class::Letter.run(rest) {
            0 => (TokenKind::Dot, 1),
            letters => (TokenKind::Word, 1 + letters),
        }),
        b'0'..=b'9' => Some((TokenKind::Number, number_length(first, rest))),
        b'%' => match Class::LetterOrDigit.run(rest) {
            0 => None,
            letters => Some((TokenKind::Percent, 1 + letters)),
        },
        _ if is_mark(first) => Some((TokenKind::Mark, 1)),
        _ => None,
    }
}

// The line is short enough, and its bytes are allowed.
fn is_fit(bytes: &[u8]) -> bool
    ensures { result ≡ is_fit bytes.now }
{
    bytes.len() <= MOST_BYTES && are_allowed(bytes)
}

fn are_allowed(bytes: &[u8]) -> bool
    ensures { result ≡ list_all is_allowed bytes.now }
{
    bytes.iter().all(|byte| is_allowed(*byte))
}

// The place of the first `!`.
fn comment_at(bytes: &[u8]) -> Option<usize>
    ensures found { result ≡ position (λ byte. byte == 33) bytes.now }
    ensures within { IfSome result (λ at. at < length bytes.now) }
{
    bytes.iter().position(|byte| *byte == b'!')
}

// The line up to its comment.
fn code_of(bytes: &[u8]) -> &[u8]
    ensures code { result.now ≡ code_of bytes.now }
    ensures within { length result.now ≤ length bytes.now }
{
    match comment_at(bytes) {
        Some(at) => {
            let (code, _comment) = bytes.split_at(at);
            code
        }
        None => bytes,
    }
}

// Appends the tokens of a line's code, which stands at a place of the source.
fn cut_code(tokens: &mut Tokens, code: &[u8], line: u32, start: usize) -> Result<(), LexErr>
    requires room { length tokens.old + length code.now < 2 ^ 32 - 1 }
    requires place { start + length code.now < 2 ^ 64 }
    ensures cut { AppendsLine line (cut_from line start 0 code.now) tokens.old tokens.new result }
    ensures room { length tokens.new ≤ length tokens.old + length code.now }
{
    let mut at = start;
    let mut rest = code;
    while let Some((first, behind)) = rest.split_first() {
        if Class::Blank.has(*first) {
            at += 1;
            rest = behind;
            continue;
        }
        let Some((kind, length)) = token_from(*first, behind) else {
            return Err(LexErr::Syntax { line });
        };
        tokens.push(Token {
            line,
            start: at,
            end: at + length,
            kind,
        })?;
        let (_token, after) = rest.split_at(length);
        at += length;
        rest = after;
    }
    Ok(())
}

// Appends the tokens of a line.
#[tactic(auto, unfolding(crate::specs::Cut::line_tokens))]
fn cut_line(tokens: &mut Tokens, source: &[u8], span: &Span, line: u32) -> Result<(), LexErr>
    requires order { span.now.start ≤ span.now.end }
    requires within { span.now.end ≤ length source.now }
    requires room { length tokens.old ≤ span.now.start }
    requires short { length source.now < 2 ^ 32 - 1 }
    ensures cut { AppendsLine line (line_tokens line span.now.start (take (span.now.end - span.now.start) (drop span.now.start source.now))) tokens.old tokens.new result }
    ensures room { length tokens.new ≤ span.now.end }
{
    let (_before, rest) = source.split_at(span.start);
    let (bytes, _behind) = rest.split_at(span.end - span.start);
    if !is_fit(bytes) {
        return Err(LexErr::Syntax { line });
    }
    cut_code(tokens, code_of(bytes), line, span.start)
}

/// The tokens of one line of a source, as `tokens` has them, take the place of a list's members.
pub fn line_tokens(tokens: &mut Tokens, source: &[u8], span: &Span, line: u32) -> Result<(), LexErr>
    requires order { span.now.start ≤ span.now.end }
    requires within { span.now.end ≤ length source.now }
    requires short { length source.now < 2 ^ 32 - 1 }
    ensures cut { LineIsCut line (line_tokens line span.now.start (take (span.now.end - span.now.start) (drop span.now.start source.now))) tokens.new result }
    ensures few { length tokens.new ≤ span.now.end }
{
    clear(tokens);
    match cut_line(tokens, source, span, line) {
        Ok(()) => Ok(()),
        Err(e) => Err(e),
    }
}

/// The tokens of a source, in order: each has its line, its kind, and the places in the source
/// that its text goes from and to. Syntax comes exactly at the first line that can't be cut.
#[tactic(auto, unfolding(crate::specs::Cut::tokens_of))]
pub fn tokens(alloc: Global, source: &[u8]) -> Result<Tokens, LexErr>
    requires { length source.now < 2 ^ 32 - 1 }
    ensures { Answers (tokens_of source.now) result }
{
    let mut tokens = Tokens::empty(alloc);
    let mut line = 0;
    let mut from = 0;
    while let Some(span) = line_at(source, from) {
        line += 1;
        match cut_line(&mut tokens, source, &span, line) {
            Ok(()) => from = span.next,
            Err(e) => return Err(e),
        }
    }
    Ok(tokens)
}
