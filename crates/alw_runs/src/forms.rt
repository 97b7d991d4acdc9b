ghost use Rattle.std.specs.Prelude.{◌≡◌, IfOk};
ghost use Rattle.alw_config.specs.declared.commands.Form.TheVariants as forms;
ghost use Rattle.alw_runs.specs.Forms.{output_of, output_with};

use alw_answers::{Output, ending_of};
use alw_config::Form;
use alw_log::log;
use alw_mesh::{Machine, MachineParts};
use alw_model::Ended;
use alw_num::NoMemory;
use alw_profile::profile;
use alw_report::{json, report, summary};
use alw_text::Text;
use alw_told::{memory_of, tell, tell_head};
use alw_trace::{Claim, Trace, write_claim, write_trace};
use std::alloc::Global;

/// The run of a machine up to an end, told in a form, which makes what it writes alone.
pub fn told(alloc: Global, machine: Machine, ended: Ended, form: Form) -> Result<Output, NoMemory>
    ensures { IfOk result (λ output. output ≡ output_of machine ended form) }
{
    match form {
        Form::Report => reported(alloc, machine, ended),
        Form::Json => as_json(alloc, machine, ended),
        Form::Trace => traced(alloc, machine, ended),
        Form::Claim => claimed(alloc, machine, ended),
        Form::Summary => summarized(alloc, machine, ended),
        Form::Log => logged(alloc, machine, ended),
        Form::Profile => profiled(alloc, machine, ended),
    }
}

// As a report.
fn reported(alloc: Global, machine: Machine, ended: Ended) -> Result<Output, NoMemory>
    ensures { IfOk result (λ output. output ≡ output_of machine ended forms.Report) }
{
    let text = report(alloc, &tell(alloc, &machine, ended)?)?;
    Ok(output_with(machine, ended, text))
}

// As JSON.
fn as_json(alloc: Global, machine: Machine, ended: Ended) -> Result<Output, NoMemory>
    ensures { IfOk result (λ output. output ≡ output_of machine ended forms.Json) }
{
    let text = json(alloc, &tell(alloc, &machine, ended)?)?;
    Ok(output_with(machine, ended, text))
}

// As a summary.
fn summarized(alloc: Global, machine: Machine, ended: Ended) -> Result<Output, NoMemory>
    ensures { IfOk result (λ output. output ≡ output_of machine ended forms.Summary) }
{
    let text = summary(alloc, &tell_head(alloc, &machine, ended))?;
    Ok(output_with(machine, ended, text))
}

// As a log.
#[tactic(auto, unfolding(crate::specs::Forms::run_text))]
fn logged(alloc: Global, machine: Machine, ended: Ended) -> Result<Output, NoMemory>
    ensures { IfOk result (λ output. output ≡ output_of machine ended forms.Log) }
{
    let text = log(alloc, &machine, &ended)?;
    Ok(output_with(machine, ended, text))
}

// As a profile.
#[tactic(auto, unfolding(crate::specs::Forms::run_text))]
fn profiled(alloc: Global, machine: Machine, ended: Ended) -> Result<Output, NoMemory>
    ensures { IfOk result (λ output. output ≡ output_of machine ended forms.Profile) }
{
    let text = profile(alloc, &machine)?;
    Ok(output_with(machine, ended, text))
}

/// The output of a machine's run, with its text.
pub fn output_with(machine: Machine, ended: Ended, text: Text) -> Output
    ensures { result ≡ output_with machine ended text }
{
    let MachineParts { journal, .. } = machine.into_parts();
    Output {
        text,
        ending: ending_of(ended),
        journal,
        merged: 0,
    }
}

// As a trace.
fn traced(alloc: Global, machine: Machine, ended: Ended) -> Result<Output, NoMemory>
    ensures { IfOk result (λ output. output ≡ output_of machine ended forms.Trace) }
{
    let MachineParts {
        image,
        params,
        journal,
        ..
    } = machine.into_parts();
    let trace = Trace {
        image,
        params,
        journal,
    };
    let text = write_trace(alloc, &trace)?;
    let Trace { journal, .. } = trace;
    Ok(Output {
        text,
        ending: ending_of(ended),
        journal,
        merged: 0,
    })
}

// As a claim.
fn claimed(alloc: Global, machine: Machine, ended: Ended) -> Result<Output, NoMemory>
    ensures { IfOk result (λ output. output ≡ output_of machine ended forms.Claim) }
{
    let memory = memory_of(alloc, &machine)?;
    let MachineParts {
        image,
        journal,
        turns,
        prints,
        ..
    } = machine.into_parts();
    let claim = Claim {
        image,
        turns,
        prints,
        memory,
    };
    let text = write_claim(alloc, &claim)?;
    Ok(Output {
        text,
        ending: ending_of(ended),
        journal,
        merged: 0,
    })
}
