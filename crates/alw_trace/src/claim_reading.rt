ghost use Rattle.std.specs.Prelude.{◌≡◌, ◌≤◌, ◌^◌, IfOk, IfErr};
ghost use Rattle.alw_trace.specs.Lines.{AreClaimLines};
ghost use Rattle.alw_trace.specs.Readings.{HasClaimTypes, ReadsClaim};
ghost use Rattle.alw_trace.specs.Lists.{IsClaimOf, IsNoClaim, claim_of};

use crate::claim_lines::read_claim_lines;
use crate::claim_ranges::{prints_of, turns_of, words_of};
use crate::faults::TextErr;
use crate::image_lines::line_behind;
use crate::raw::RawClaim;
use crate::reading::image_of;
use crate::values::Claim;
use std::alloc::Global;

/// The claim that a text spells. It fails by the first of the checks that the text doesn't pass (see
/// [`TextErr`]), or for want of memory; what it takes is in proportion to the text, and to its turns,
/// of which there are at most 8,388,608.
pub fn read_claim(alloc: Global, bytes: &[u8]) -> Result<Claim, TextErr>
    ensures read { ReadsClaim bytes.now result }
    ensures types { IfOk result HasClaimTypes }
{
    let lines = read_claim_lines(alloc, bytes)?;
    claim_of(alloc, &lines)
}

// The claim of a text's lines.
fn claim_of(alloc: Global, lines: &RawClaim) -> Result<Claim, TextErr>
    requires { AreClaimLines (claim_of lines.now) }
    ensures ok { IfOk result (IsClaimOf (claim_of lines.now)) }
    ensures err { IfErr result (IsNoClaim (claim_of lines.now)) }
{
    let image = image_of(alloc, lines.image.bytes())?;
    let contexts = image.all_contexts();
    let shared = image.lines();
    let at = line_behind(&lines.image);
    let turns = turns_of(alloc, &lines.runs, contexts, at)?;
    let at = at + 1 + lines.runs.len() as u64;
    let prints = prints_of(alloc, &lines.prints, contexts, at)?;
    let at = at + 1 + lines.prints.len() as u64;
    let memory = words_of(alloc, &lines.memory, shared, at)?;
    Ok(Claim {
        image,
        turns,
        prints,
        memory,
    })
}
