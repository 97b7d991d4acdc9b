ghost use Rattle.std.specs.Prelude.{◌≡◌, ◌≤◌, ◌<◌, ◌+◌, ◌-◌, ◌^◌, length, IfOk, IfErr};
ghost use Rattle.alw_trace.specs.Lines.{IsClaimFault, IsFaultInLines, IsFaultInList};
ghost use Rattle.alw_trace.specs.Raw.{IsSyntaxFault};
ghost use Rattle.alw_trace.specs.Lists.{ArePairsRead, IsLineOf, IsListRead, IsOfClaim, claim_of, line_of, name_of};

use crate::faults::TextErr;
use crate::image_lines::{image_at, line_behind};
use crate::pairs::{ListKind, heading_of, pair_at};
use crate::raw::RawClaim;
use crate::readers::{behind, number_behind};
use crate::trace_lines::end_at;
use std::alloc::Global;

/// What the lines of a claim say, in range or not, or the first line that isn't of its form.
pub fn read_claim_lines(alloc: Global, text: &[u8]) -> Result<RawClaim, TextErr>
    ensures ok { IfOk result (λ claim. IsOfClaim text.now (claim_of claim)) }
    ensures err { IfErr result (IsSyntaxFault (IsClaimFault text.now)) }
{
    let Some(rest) = behind(text, b"ALEWIFE CLAIM 1\n") else {
        return Err(TextErr::Syntax { line: 1 });
    };
    let (image, rest) = image_at(alloc, rest)?;
    let line = line_behind(&image);
    let (runs, rest) = list_at(alloc, rest, ListKind::Runs, line)?;
    let line = line + 1 + runs.len() as u64;
    let (prints, rest) = list_at(alloc, rest, ListKind::Prints, line)?;
    let line = line + 1 + prints.len() as u64;
    let (memory, rest) = list_at(alloc, rest, ListKind::Memory, line)?;
    end_at(rest, line + 1 + memory.len() as u64)?;
    Ok(RawClaim {
        image,
        runs,
        prints,
        memory,
    })
}

// A list behind its heading, which is the line of this number, and what follows it.
fn list_at(
    alloc: Global,
    text: &[u8],
    kind: ListKind,
    first: u64,
) -> Result<(Vec<(u64, u64)>, &[u8]), TextErr>
    requires { first + length text.now < 2 ^ 64 - 4 }
    ensures ok { IfOk result (λ read. IsListRead kind text.now read.0.items read.1.now) }
    ensures room { IfOk result (λ read. length read.0.items + 1 + length read.1.now ≤ length text.now) }
    ensures err { IfErr result (IsSyntaxFault (IsFaultInList (IsLineOf kind) (line_of kind) (name_of kind) first text.now)) }
{
    match number_behind(text, heading_of(kind), b'\n') {
        Some((count, rest)) => pairs_at(alloc, rest, kind, count, first + 1),
        None => Err(TextErr::Syntax { line: first }),
    }
}

// So many lines of a list, of which the first has this number, and what follows them.
fn pairs_at(
    alloc: Global,
    text: &[u8],
    kind: ListKind,
    count: u64,
    first: u64,
) -> Result<(Vec<(u64, u64)>, &[u8]), TextErr>
    requires { first + length text.now < 2 ^ 64 - 3 }
    ensures ok { IfOk result (λ read. ArePairsRead kind count text.now read.0.items read.1.now) }
    ensures err { IfErr result (IsSyntaxFault (IsFaultInLines (IsLineOf kind) (line_of kind) count first text.now)) }
{
    let mut pairs = Vec::new(alloc);
    let mut rest = text;
    while (pairs.len() as u64) < count {
        let Some((pair, after)) = pair_at(rest, kind) else {
            return Err(TextErr::Syntax {
                line: first + pairs.len() as u64,
            });
        };
        pairs.push(pair)?;
        rest = after;
    }
    Ok((pairs, rest))
}
