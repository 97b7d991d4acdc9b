ghost use Rattle.std.specs.Prelude.{◌≡◌, ◌++◌, IfOk, OnOk};
ghost use Rattle.alw_trace.specs.Texts.{lists_text, trace_text, claim_text};

use crate::fronts::{put_front, put_image};
use crate::values::{Claim, Trace};
use alw_msg::stretches;
use alw_num::NoMemory;
use alw_report::{put_memory, put_prints, put_runs};
use alw_text::Text;
use std::alloc::Global;

/// The one text of a trace.
#[tactic(auto, unfolding(crate::specs::Texts::trace_text, crate::specs::Texts::trace_title, crate::specs::Fronts::front_text))]
pub fn write_trace(alloc: Global, trace: &Trace) -> Result<Text, NoMemory>
    ensures { IfOk result (λ text. text ≡ trace_text trace.now) }
{
    let mut text = Text::empty(alloc);
    text.put(b"ALEWIFE TRACE 1\n")?;
    put_front(
        alloc,
        &mut text,
        &trace.image,
        &trace.params,
        &trace.journal,
    )?;
    text.put(b"end\n")?;
    Ok(text)
}

/// The one text of a claim.
#[tactic(auto, unfolding(crate::specs::Texts::claim_text, crate::specs::Texts::claim_title))]
pub fn write_claim(alloc: Global, claim: &Claim) -> Result<Text, NoMemory>
    ensures { IfOk result (λ text. text ≡ claim_text claim.now) }
{
    let mut text = Text::empty(alloc);
    text.put(b"ALEWIFE CLAIM 1\n")?;
    put_image(alloc, &mut text, &claim.image)?;
    put_lists(alloc, &mut text, claim)?;
    text.put(b"end\n")?;
    Ok(text)
}

// The turns in stretches, the prints, and the memory.
#[tactic(auto, unfolding(crate::specs::Texts::lists_text))]
fn put_lists(alloc: Global, text: &mut Text, claim: &Claim) -> Result<(), NoMemory>
    ensures { OnOk result (text.new ≡ text.old ++ lists_text claim.now) }
{
    let count = claim.turns.len();
    prove!(count <= u32::MAX);
    let runs = stretches(alloc, claim.turns.members())?;
    put_runs(text, &runs)?;
    put_prints(text, &claim.prints)?;
    put_memory(text, &claim.memory)?;
    Ok(())
}
