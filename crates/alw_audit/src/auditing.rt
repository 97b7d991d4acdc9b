ghost use Rattle.std.specs.Prelude.{◌≡◌, ◌<◌, ◌≤◌, ◌^◌, ◌-◌, ◌+◌, ◌++◌, ◌↔◌, length, IfOk, OnOk};
ghost use Rattle.std.specs.List.{AllByRecursion};
ghost use Rattle.alw_image.specs.Images.{context_count};
ghost use Rattle.alw_model.specs.Flat.{print_of, turns_after, turns_print};
ghost use Rattle.alw_audit.specs.declared.verdicts.Verdict.TheVariants.{Sound};
ghost use Rattle.alw_audit.specs.Verdicts.{VerdictIsOfWords, IsAuditable, ClaimIsSound, stop_number, turns_verdict, verdict_of};

use crate::memory::words_verdict;
use crate::prints::prints_verdict;
use crate::verdicts::{Difference, Verdict};
use alw_flat::Flat;
use alw_msg::{Prints, Status};
use alw_num::NoMemory;
use alw_trace::Claim;
use sparc_exec::Outcome;
use std::alloc::Global;

/// Runs a claim's turns on the flat machine, and answers the first place at which the claim differs: a turn of
/// a context that isn't Ready, the number of prints, a print, or a word of shared data, by address. A word that
/// the claim doesn't list is claimed to be 0.
pub fn audit(alloc: Global, claim: &Claim) -> Result<Verdict, NoMemory>
    requires { IsAuditable claim.now }
    ensures verdict { IfOk result (λ verdict. verdict ≡ verdict_of claim.now) }
    ensures sound { IfOk result (λ verdict. (verdict ≡ Sound) ↔ ClaimIsSound claim.now) }
    ensures words { IfOk result VerdictIsOfWords }
{
    first_difference(alloc, claim)
}

// The first difference, in the order of turns, prints and memory.
fn first_difference(alloc: Global, claim: &Claim) -> Result<Verdict, NoMemory>
    requires { IsAuditable claim.now }
    ensures verdict { IfOk result (λ verdict. verdict ≡ verdict_of claim.now) }
    ensures words { IfOk result VerdictIsOfWords }
{
    let (turn_count, print_count) = (claim.turns.len(), claim.prints.len());
    prove!(turn_count <= u32::MAX && print_count <= u32::MAX);
    let mut flat = Flat::start(alloc, &claim.image)?;
    let mut prints = Prints::empty(alloc);
    let turns = run_turns(&mut flat, claim.turns.members(), &mut prints)?;
    match turns {
        Verdict::Sound => {}
        Verdict::Differs { .. } => return Ok(turns),
    }
    let printed = prints_verdict(claim.prints.members(), prints.members());
    match printed {
        Verdict::Sound => {}
        Verdict::Differs { .. } => return Ok(printed),
    }
    let lines = claim.image.lines();
    Ok(words_verdict(&flat, lines, claim.memory.members()))
}

// Takes the turns, up to the first of a context that isn't Ready, and appends what they print.
fn run_turns(flat: &mut Flat, turns: &[u32], prints: &mut Prints) -> Result<Verdict, NoMemory>
    requires few { length turns.now < 2 ^ 32 }
    requires contexts { AllByRecursion (λ context. context < context_count flat.old.parts) turns.now }
    requires prints { length prints.old ≡ 0 }
    ensures verdict { IfOk result (λ verdict. verdict ≡ turns_verdict flat.old.parts flat.old.flat 0 turns.now) }
    ensures prints { IfOk result (λ verdict. verdict ≡ Sound → prints.new ≡ turns_print flat.old.parts flat.old.flat turns.now) }
    ensures words { IfOk result VerdictIsOfWords }
    ensures state { IfOk result (λ verdict. verdict ≡ Sound → flat.new ≡ record flat.old { flat = turns_after flat.old.parts flat.old.flat turns.now }) }
{
    let mut k = 0;
    for context in turns {
        let status = flat.status(*context);
        if !status.is_ready() {
            return Ok(Verdict::Differs {
                place: Difference::Turn { k },
                claimed: u64::from(*context),
                real: stop_number(status),
            });
        }
        let outcome = flat.turn(*context);
        put_print(prints, *context, outcome)?;
        k += 1;
    }
    Ok(Verdict::Sound)
}

// Appends what a turn of a context printed.
fn put_print(prints: &mut Prints, context: u32, outcome: Outcome) -> Result<(), NoMemory>
    requires { length prints.old < 2 ^ 32 - 1 }
    ensures prints { OnOk result (prints.new ≡ prints.old ++ print_of context outcome) }
    ensures few { OnOk result (length prints.new ≤ length prints.old + 1) }
{
    if let Outcome::Out { word } = outcome {
        prints.push((context, word))?;
    }
    Ok(())
}

// 1 for a context that has halted, 2 for one that has trapped.
fn stop_number(status: Status) -> u64
    ensures number { result ≡ stop_number status }
    ensures few { result ≤ 2 }
{
    match status {
        Status::Halted => 1,
        Status::Trapped { .. } => 2,
        _ => 0,
    }
}
