ghost use Rattle.std.specs.Prelude.{◌≡◌, IfOk};
ghost use Rattle.alw_timing.specs.Timing.{TimesAreOf};
ghost use Rattle.alw_cycles.specs.Timing.{time_text, tells_by, TellAs};

use alw_config::TimeForm;
use alw_mesh::Machine;
use alw_model::Ended;
use alw_num::NoMemory;
use alw_text::Text;
use alw_times::Costs;
use alw_timing::{RunTimes, Tells, cycles_text, moments_text};
use std::alloc::Global;

/// What a form tells beside the clocks.
pub fn tells_by(form: TimeForm) -> Tells
    ensures { result ≡ tells_by form }
{
    match form {
        TimeForm::Cycles => Tells::Waits,
        TimeForm::Moments => Tells::Spans,
    }
}

/// The times of a machine's run, in a form.
pub fn time_text(
    alloc: Global,
    costs: &Costs,
    form: TimeForm,
    machine: &Machine,
    ended: &Ended,
    times: &RunTimes,
) -> Result<Text, NoMemory>
    requires are { TimesAreOf costs.now machine.now times.now }
    requires told { TellAs (tells_by form) times.now }
    ensures { IfOk result (λ text. text ≡ time_text costs.now form machine.now.image machine.now.parameters machine.now.journal ended.now) }
{
    match form {
        TimeForm::Cycles => {
            let Some(waits) = &times.waits else {
                unreachable!();
            };
            cycles_text(alloc, machine, ended, costs, &times.clocks, waits)
        }
        TimeForm::Moments => {
            let Some(spans) = &times.spans else {
                unreachable!();
            };
            moments_text(alloc, machine, costs, spans)
        }
    }
}
