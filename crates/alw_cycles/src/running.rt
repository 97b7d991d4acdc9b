ghost use Rattle.std.specs.Prelude.{◌≡◌, IfOk};
ghost use Rattle.alw_mesh.specs.Histories.{begun};
ghost use Rattle.alw_timing.specs.Timing.{TimesAreOf, TimesAreKept};
ghost use Rattle.alw_answers.specs.Outputs.{Gives};
ghost use Rattle.alw_runs.specs.Forms.{output_with};
ghost use Rattle.alw_runs.specs.Running.{parameters_in};
ghost use Rattle.alw_cycles.specs.Timing.{TellAs};
ghost use Rattle.alw_cycles.specs.ByTime.{timed_text, tells_for, TellsByTime, RunsByTime, IsNoRunByTime};

use crate::texts::{tells_by, time_text};
use alw_answers::{Output, Refusal};
use alw_config::TimedForm;
use alw_due::finish_by_time;
use alw_image::{Image, Params, read_image};
use alw_mesh::Machine;
use alw_model::Ended;
use alw_num::NoMemory;
use alw_runs::{output_with, told};
use alw_times::Costs;
use alw_timing::{RunTimes, Tells, Timekeeper};
use std::alloc::Global;

/// Runs the image that bytes spell by the timed schedule of these costs, up to an end, and tells the run or its times.
pub fn run_by_time(
    alloc: Global,
    costs: &Costs,
    params: &Params,
    form: TimedForm,
    bytes: &[u8],
) -> Result<Output, Refusal>
    ensures { Gives (RunsByTime costs.now (parameters_in params.now bytes.now) form bytes.now) (IsNoRunByTime bytes.now) result }
{
    let image = read_image(alloc, bytes)?;
    let _allowed = params.limit(); // for its clause
    let params = params.for_nodes(image.nodes());
    let _fits = params.limit(); // for its clause
    let output = timed_output(alloc, costs, &params, form, &image)?;
    Ok(output)
}

// An image's run from its start on, or its times, in a form.
fn timed_output(
    alloc: Global,
    costs: &Costs,
    params: &Params,
    form: TimedForm,
    image: &Image,
) -> Result<Output, NoMemory>
    ensures { IfOk result (λ output. TellsByTime (begun image.now params.now) costs.now form output) }
{
    let mut keeper = Timekeeper::of_start(alloc, image, costs, tells_for(form))?;
    let machine = Machine::begin(alloc, image, params)?;
    finished_output(alloc, costs, form, machine, &mut keeper)
}

// A machine is taken to an end, and its run or its times are told, in a form.
fn finished_output(
    alloc: Global,
    costs: &Costs,
    form: TimedForm,
    machine: Machine,
    keeper: &mut Timekeeper,
) -> Result<Output, NoMemory>
    requires kept { TimesAreKept keeper.old machine keeper.old }
    requires costs { keeper.old.costs ≡ costs.now }
    requires told { TellAs (tells_for form) keeper.old.times }
    ensures { IfOk result (λ output. TellsByTime machine costs.now form output) }
{
    let mut machine = machine;
    let ended = finish_by_time(alloc, &mut machine, keeper)?;
    told_by_time(alloc, costs, form, machine, ended, &keeper.times)
}

// What a form tells beside the clocks.
fn tells_for(form: TimedForm) -> Tells
    ensures { result ≡ tells_for form }
{
    match form {
        TimedForm::Run(_) => Tells::Nothing,
        TimedForm::Time(form) => tells_by(form),
    }
}

// A machine's run or its times, in a form.
fn told_by_time(
    alloc: Global,
    costs: &Costs,
    form: TimedForm,
    machine: Machine,
    ended: Ended,
    times: &RunTimes,
) -> Result<Output, NoMemory>
    requires are { TimesAreOf costs.now machine times.now }
    requires told { TellAs (tells_for form) times.now }
    ensures { IfOk result (λ output. output ≡ output_with machine ended (timed_text costs.now form machine.image machine.parameters machine.journal ended)) }
{
    match form {
        TimedForm::Run(form) => told(alloc, machine, ended, form),
        TimedForm::Time(form) => {
            let text = time_text(alloc, costs, form, &machine, &ended, times)?;
            Ok(output_with(machine, ended, text))
        }
    }
}
