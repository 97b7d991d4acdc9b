ghost use Rattle.std.specs.Prelude.{◌≡◌, ◌≢◌, ◌++◌, ◌∷◌, List, ℕ, codes, IfSome, IfNone};
ghost use Rattle.alw_report.specs.Reports.{print_line, run_line, word_line};
ghost use Rattle.alw_trace.specs.Lines.{IsMemoryWord, IsPrint, IsStretch, Lacks};
ghost use Rattle.alw_trace.specs.Lists.{IsLineOf, line_of, name_of};

use crate::readers::{number_before, word_before};

/// A list of a claim, of which each line says two numbers.
#[derive(Clone, Copy, PartialEq, Eq)]
pub enum ListKind {
    /// Contexts, each with a number of turns.
    Runs,
    /// Contexts, each with a printed word.
    Prints,
    /// Addresses, each with a word.
    Memory,
}

// What stands in the list's heading before the number of its lines.
pub fn heading_of(kind: ListKind) -> &'static [u8]
    ensures { result.now ≡ name_of kind ++ codes " " }
{
    match kind {
        ListKind::Runs => b"runs ",
        ListKind::Prints => b"prints ",
        ListKind::Memory => b"memory ",
    }
}

// The two numbers of the first line, and what follows it. None exactly where no such line stands there.
pub fn pair_at(text: &[u8], kind: ListKind) -> Option<((u64, u64), &[u8])>
    ensures found { IfSome result (λ read. text.now ≡ line_of kind read.0 ++ read.1.now) }
    ensures range { IfSome result (λ read. IsLineOf kind read.0) }
    ensures none { IfNone result (Lacks (IsLineOf kind) (line_of kind) text.now) }
{
    match kind {
        ListKind::Runs => run_at(text),
        ListKind::Prints => print_at(text),
        ListKind::Memory => word_at(text),
    }
}

// A context, and how many turns it takes.
fn run_at(text: &[u8]) -> Option<((u64, u64), &[u8])>
    ensures found { IfSome result (λ read. text.now ≡ run_line read.0 ++ read.1.now) }
    ensures range { IfSome result (λ read. IsStretch read.0) }
    ensures none { IfNone result (Lacks IsStretch run_line text.now) }
{
    let (context, rest) = number_before(text, b' ')?;
    let (count, rest) = number_before(rest, b'\n')?;
    Some(((context, count), rest))
}

// A context, and the word that it printed.
fn print_at(text: &[u8]) -> Option<((u64, u64), &[u8])>
    ensures found { IfSome result (λ read. text.now ≡ print_line read.0 ++ read.1.now) }
    ensures range { IfSome result (λ read. IsPrint read.0) }
    ensures none { IfNone result (Lacks IsPrint print_line text.now) }
{
    let (context, rest) = number_before(text, b' ')?;
    let (word, rest) = word_before(rest, b'\n')?;
    Some(((context, word), rest))
}

// An address, and the word that stands there.
fn word_at(text: &[u8]) -> Option<((u64, u64), &[u8])>
    ensures found { IfSome result (λ read. text.now ≡ word_line read.0 ++ read.1.now) }
    ensures range { IfSome result (λ read. IsMemoryWord read.0) }
    ensures none { IfNone result (Lacks IsMemoryWord word_line text.now) }
{
    let (address, rest) = word_before(text, b' ')?;
    let (word, rest) = word_before(rest, b'\n')?;
    Some(((address, word), rest))
}
