ghost use Rattle.std.specs.Prelude.{◌≡◌, ◌<◌, ◌^◌, ◌++◌, length, IfOk, OnOk, IsTrue};
ghost use Rattle.std.specs.List.{AllByRecursion};
ghost use Rattle.alw_image.specs.Images.{context_count};
ghost use Rattle.alw_msg.specs.Statuses.{is_ready};
ghost use Rattle.alw_model.specs.Flat.{context_at, flat_turn};
ghost use Rattle.alw_flat.specs.Machines.{for_turns};
ghost use Rattle.alw_claims.specs.Logs.{claim_log, head_text, turn_line, turns_text};

use crate::sights::{bytes_in, look};
use alw_effects::{put_effect, put_place};
use alw_flat::Flat;
use alw_image::Image;
use alw_num::NoMemory;
use alw_text::{Spell, Text, put_number};
use alw_trace::Claim;
use std::alloc::Global;

/// The turns of a claim on the flat memory, a line a turn: its number, its context, the PC and the statement there,
/// and what the turn did. The lines end at the first turn of a context that isn't Ready.
#[tactic(auto, unfolding(crate::specs::Logs::claim_log))]
pub fn claim_log(alloc: Global, claim: &Claim) -> Result<Text, NoMemory>
    requires { AllByRecursion (λ context. context < context_count claim.now.image) claim.now.turns }
    ensures { IfOk result (λ text. text ≡ claim_log claim.now) }
{
    let turn_count = claim.turns.len();
    prove!(turn_count <= u32::MAX);
    let mut flat = Flat::start(alloc, &claim.image)?;
    let mut text = Text::empty(alloc);
    put_turns(&mut text, &claim.image, &mut flat, claim.turns.members())?;
    Ok(text)
}

// Takes the turns, up to the first of a context that isn't Ready, and appends the line of each.
fn put_turns(text: &mut Text, image: &Image, flat: &mut Flat, turns: &[u32]) -> Result<(), NoMemory>
    requires few { length turns.now < 2 ^ 32 }
    requires parts { flat.old.parts ≡ for_turns image.now }
    requires contexts { AllByRecursion (λ context. context < context_count image.now) turns.now }
    ensures { OnOk result (text.new ≡ text.old ++ turns_text image.now flat.old.flat 0 turns.now) }
{
    let mut k = 0;
    for context in turns {
        if !flat.status(*context).is_ready() {
            return Ok(());
        }
        put_turn(text, image, flat, k, *context)?;
        k += 1;
    }
    Ok(())
}

// Takes a turn of a context that is Ready, and appends its line.
#[tactic(auto, unfolding(crate::specs::Logs::turn_line))]
fn put_turn(
    text: &mut Text,
    image: &Image,
    flat: &mut Flat,
    k: u32,
    context: u32,
) -> Result<(), NoMemory>
    requires parts { flat.old.parts ≡ for_turns image.now }
    requires context { context < context_count image.now }
    requires ready { IsTrue (is_ready (context_at flat.old.flat context).status) }
    ensures text { OnOk result (text.new ≡ text.old ++ turn_line image.now flat.old.flat (flat_turn image.now flat.old.flat context).0 (flat_turn image.now flat.old.flat context).1 k context) }
    ensures state { OnOk result (flat.new ≡ record { parts = for_turns image.now; flat = (flat_turn image.now flat.old.flat context).0 }) }
{
    let code = image.code().words();
    let before = look(image, flat, context);
    put_head(text, code, k, context, before.regs.pc)?;
    let outcome = flat.turn(context);
    let regs = flat.regs(context);
    let body = bytes_in(flat, before.need);
    put_effect(text, code, &before, outcome, &regs, &body)?;
    text.put(b"\n")?;
    Ok(())
}

// The number of a turn, its context, the PC, and the statement there.
#[tactic(auto, unfolding(crate::specs::Logs::head_text))]
fn put_head(text: &mut Text, code: &[u32], k: u32, context: u32, pc: u32) -> Result<(), NoMemory>
    ensures { OnOk result (text.new ≡ text.old ++ head_text code.now k context pc) }
{
    text.put_decimal(u64::from(k))?;
    put_number(text, b" context ", u64::from(context))?;
    put_place(text, code, pc)?;
    Ok(())
}
