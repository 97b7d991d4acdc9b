ghost use Rattle.std.specs.Prelude.{◌≡◌, ◌<◌, ◌^◌, ◌++◌, IfOk, OnOk};
ghost use Rattle.std.specs.List.{AllByRecursion};
ghost use Rattle.alw_image.specs.Images.{context_count};
ghost use Rattle.alw_audit.specs.Verdicts.{VerdictIsOfWords};
ghost use Rattle.alw_checks.specs.Auditing.{Audits, IsNoClaim, audit_text, ending_of_verdict, told_before, verdict_text, place_text, print_context, values_text};
ghost use Rattle.alw_answers.specs.Outputs.{Gives};

use alw_answers::{Ending, Output, Refusal};
use alw_audit::{Difference, Verdict, audit};
use alw_claims::claim_log;
use alw_config::AuditForm;
use alw_num::NoMemory;
use alw_text::{Spell, Text, put_number};
use alw_trace::{Claim, read_claim};
use std::alloc::Global;

/// Audits the claim that bytes spell, to its verdict: alone, or behind what each turn did on the flat memory.
pub fn audit_bytes(alloc: Global, form: AuditForm, bytes: &[u8]) -> Result<Output, Refusal>
    ensures { Gives (Audits form bytes.now) (IsNoClaim bytes.now) result }
{
    let claim = read_claim(alloc, bytes)?;
    let verdict = audit(alloc, &claim)?;
    let text = audit_text(alloc, form, &claim, verdict)?;
    Ok(Output::of_text(alloc, text, ending_of_verdict(verdict)))
}

// The line of a verdict, behind what stands before it in a form.
fn audit_text(
    alloc: Global,
    form: AuditForm,
    claim: &Claim,
    verdict: Verdict,
) -> Result<Text, NoMemory>
    requires turns { AllByRecursion (λ context. context < context_count claim.now.image) claim.now.turns }
    requires words { VerdictIsOfWords verdict }
    ensures { IfOk result (λ text. text ≡ audit_text form claim.now verdict) }
{
    let mut text = told_before(alloc, form, claim)?;
    put_verdict(&mut text, verdict)?;
    Ok(text)
}

// What stands before the verdict's line.
fn told_before(alloc: Global, form: AuditForm, claim: &Claim) -> Result<Text, NoMemory>
    requires { AllByRecursion (λ context. context < context_count claim.now.image) claim.now.turns }
    ensures { IfOk result (λ text. text ≡ told_before form claim.now) }
{
    match form {
        AuditForm::Verdict => Ok(Text::empty(alloc)),
        AuditForm::Log => claim_log(alloc, claim),
    }
}

// How an audit ends by its verdict.
fn ending_of_verdict(verdict: Verdict) -> Ending
    ensures { result ≡ ending_of_verdict verdict }
{
    match verdict {
        Verdict::Sound => Ending::Fine,
        Verdict::Differs {
            place,
            claimed,
            real,
        } => Ending::Differs(place, claimed, real),
    }
}

// The line of a verdict.
#[tactic(auto, unfolding(crate::specs::Auditing::sound_line))]
fn put_verdict(text: &mut Text, verdict: Verdict) -> Result<(), NoMemory>
    requires { VerdictIsOfWords verdict }
    ensures { OnOk result (text.new ≡ text.old ++ verdict_text verdict) }
{
    match verdict {
        Verdict::Sound => text.put(b"sound\n")?,
        Verdict::Differs {
            place,
            claimed,
            real,
        } => {
            text.put(b"differs ")?;
            put_place(text, place)?;
            put_values(text, claimed, real)?;
        }
    }
    Ok(())
}

// The place at which a claim differs.
fn put_place(text: &mut Text, place: Difference) -> Result<(), NoMemory>
    ensures { OnOk result (text.new ≡ text.old ++ place_text place) }
{
    match place {
        Difference::Turn { k } => put_number(text, b"turn ", u64::from(k)),
        Difference::PrintCount => text.put(b"print-count"),
        Difference::PrintContext { k } => {
            put_print_context(text)?;
            text.put_decimal(u64::from(k))
        }
        Difference::Print { k } => put_number(text, b"print ", u64::from(k)),
        Difference::Memory { addr } => {
            text.put(b"memory ")?;
            text.put_hex32(addr)
        }
    }
}

#[tactic(auto, unfolding(crate::specs::Auditing::print_context))]
fn put_print_context(text: &mut Text) -> Result<(), NoMemory>
    ensures { OnOk result (text.new ≡ text.old ++ print_context) }
{
    text.put(b"print-context ")
}

// What is claimed there, and what is real.
#[tactic(auto, unfolding(crate::specs::Auditing::values_text))]
fn put_values(text: &mut Text, claimed: u64, real: u64) -> Result<(), NoMemory>
    requires claimed { claimed < 2 ^ 32 }
    requires real { real < 2 ^ 32 }
    ensures { OnOk result (text.new ≡ text.old ++ values_text claimed real) }
{
    text.put(b" claimed ")?;
    text.put_hex32(claimed as u32)?;
    text.put(b" real ")?;
    text.put_hex32(real as u32)?;
    text.put(b"\n")?;
    Ok(())
}
