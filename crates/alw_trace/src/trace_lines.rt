ghost use Rattle.std.specs.Prelude.{◌≡◌, ◌≤◌, ◌<◌, ◌-◌, ◌^◌, ◌+◌, length, map, codes, IfOk, IfErr, OnOk};
ghost use Rattle.alw_trace.specs.Texts.{entry_line};
ghost use Rattle.alw_trace.specs.Lines.{IsEntry, IsFaultAtEnd, IsFaultInLines, IsFaultInList, IsTraceFault};
ghost use Rattle.alw_trace.specs.Raw.{AreEntriesRead, AreLinesRead, IsOfTrace, IsSyntaxFault, entry_of, lines_of};

use crate::faults::TextErr;
use crate::fronts::{front_at, last_line};
use crate::lines::entry_at;
use crate::raw::{RawEntry, RawTrace};
use crate::readers::{behind, number_behind};
use std::alloc::Global;

/// What the lines of a trace say, in range or not, or the first line that isn't of its form.
pub fn read_lines(alloc: Global, text: &[u8]) -> Result<RawTrace, TextErr>
    ensures ok { IfOk result (λ trace. IsOfTrace text.now (lines_of trace)) }
    ensures err { IfErr result (IsSyntaxFault (IsTraceFault text.now)) }
{
    let (lines, rest) = front_at(alloc, b"ALEWIFE TRACE 1\n", text)?;
    end_at(rest, last_line(&lines))?;
    Ok(lines)
}

// The entries behind their number, in a line of this number and those behind it, and what follows them.
pub fn entries_at(alloc: Global, text: &[u8], first: u64) -> Result<(Vec<RawEntry>, &[u8]), TextErr>
    requires { first ≤ 2 ^ 60 }
    ensures ok { IfOk result (λ read. AreEntriesRead text.now (map entry_of read.0.items) read.1.now) }
    ensures err { IfErr result (IsSyntaxFault (IsFaultInList IsEntry entry_line (codes "entries") first text.now)) }
{
    match number_behind(text, b"entries ", b'\n') {
        Some((count, rest)) => lines_at(alloc, rest, count, first + 1),
        None => Err(TextErr::Syntax { line: first }),
    }
}

// So many entries, of which the first line has this number, and what follows them.
fn lines_at(
    alloc: Global,
    text: &[u8],
    count: u64,
    first: u64,
) -> Result<(Vec<RawEntry>, &[u8]), TextErr>
    requires { first ≤ 2 ^ 61 }
    ensures ok { IfOk result (λ read. AreLinesRead count text.now (map entry_of read.0.items) read.1.now) }
    ensures err { IfErr result (IsSyntaxFault (IsFaultInLines IsEntry entry_line count first text.now)) }
{
    let mut entries = Vec::new(alloc);
    let mut rest = text;
    while (entries.len() as u64) < count {
        let Some((entry, after)) = entry_at(rest) else {
            return Err(TextErr::Syntax {
                line: first + entries.len() as u64,
            });
        };
        entries.push(entry)?;
        rest = after;
    }
    Ok((entries, rest))
}

// The last line, which has this number, and nothing behind it.
pub fn end_at(text: &[u8], last: u64) -> Result<(), TextErr>
    requires { last < 2 ^ 64 - 1 }
    ensures ok { OnOk result (text.now ≡ codes "end\n") }
    ensures err { IfErr result (IsSyntaxFault (IsFaultAtEnd last text.now)) }
{
    let Some(rest) = behind(text, b"end\n") else {
        return Err(TextErr::Syntax { line: last });
    };
    if rest.is_empty() {
        Ok(())
    } else {
        Err(TextErr::Syntax { line: last + 1 })
    }
}
