ghost use Rattle.std.specs.Prelude.{◌≡◌, ◌<◌, ◌≤◌, ◌-◌, ◌^◌, length, take, drop};
ghost use Rattle.sparc_asm.specs.Sources.{read_line, read_source, AnswersLines, AnswersOne};

use crate::faults::AsmErr;
use crate::lexemes::{Lexemes, lexemes_of};
use crate::parse::spelled_line;
use crate::statements::{Line, Lines};
use alw_text::{Span, line_at};
use sparc_lex::{LexErr, Tokens, line_tokens};
use std::alloc::Global;

// The tokens and the lexemes of the line that is read. Their room serves the next line.
#[derive(Drop)]
struct Read<'a> {
    tokens: Tokens,
    lexemes: Lexemes<'a>,
}

// The line of a source with a number.
#[tactic(auto, unfolding(crate::specs::Sources::read_line))]
fn read_line<'a>(
    alloc: Global,
    source: &'a [u8],
    span: &Span,
    number: u32,
    read: &mut Read<'a>,
) -> Result<Line<'a>, AsmErr>
    requires order { span.now.start ≤ span.now.end }
    requires within { span.now.end ≤ length source.now }
    requires short { length source.now < 2 ^ 32 - 1 }
    ensures { AnswersOne number (read_line source.now number span.now.start (take (span.now.end - span.now.start) (drop span.now.start source.now))) result }
{
    match line_tokens(&mut read.tokens, source, span, number) {
        Ok(()) => {}
        Err(LexErr::Syntax { line: _ }) => return Err(AsmErr::Syntax { line: number }),
        Err(LexErr::NoMemory) => return Err(AsmErr::NoMemory),
    }
    if !lexemes_of(source, &read.tokens, &mut read.lexemes)? {
        return Err(AsmErr::Syntax { line: number });
    }
    match spelled_line(alloc, read.lexemes.members())? {
        Some(line) => Ok(line),
        None => Err(AsmErr::Syntax { line: number }),
    }
}

/// The lines of a source, in order. Syntax comes exactly at the first that can't be cut or isn't of
/// a statement's form.
pub fn read_source<'a>(alloc: Global, source: &'a [u8]) -> Result<Lines<'a>, AsmErr>
    requires { length source.now < 2 ^ 32 - 1 }
    ensures { AnswersLines (read_source source.now) result }
{
    let mut lines = Lines::empty(alloc);
    let mut read = Read {
        tokens: Tokens::empty(alloc),
        lexemes: Lexemes::empty(alloc),
    };
    let mut from = 0;
    while let Some(span) = line_at(source, from) {
        match read_line(alloc, source, &span, lines.len() + 1, &mut read) {
            Ok(line) => lines.push(line)?,
            Err(e) => return Err(e),
        }
        from = span.next;
    }
    Ok(lines)
}
