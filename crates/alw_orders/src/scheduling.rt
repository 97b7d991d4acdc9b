ghost use Rattle.std.specs.Prelude.{◌≡◌};
ghost use Rattle.alw_image.specs.Parameters.{AreParameters};
ghost use Rattle.alw_answers.specs.Outputs.{Gives};
ghost use Rattle.alw_orders.specs.Scheduling.{Schedules, IsNotScheduled, TakesClaim, refusal_of_serve};

use alw_answers::{InputErr, Output, Refusal};
use alw_config::Form;
use alw_image::Params;
use alw_runs::told;
use alw_serve::{Hindrance, ServeErr, Served, serve};
use alw_trace::read_claim;
use std::alloc::Global;

/// Takes the turns of the claim that bytes spell, in their order, on a machine with these parameters: the trace
/// of that run. What the claim says of prints and memory is read, and not looked at.
pub fn schedule_bytes(alloc: Global, params: &Params, bytes: &[u8]) -> Result<Output, Refusal>
    ensures { Gives (Schedules params.now bytes.now) (IsNotScheduled params.now bytes.now) result }
{
    let Served { machine, ended } = serve_claim(alloc, params, bytes)?;
    let output = told(alloc, machine, ended, Form::Trace)?;
    Ok(output)
}

// The machine that has taken the turns of the claim that bytes spell. The claim is gone before the trace is written.
fn serve_claim(alloc: Global, params: &Params, bytes: &[u8]) -> Result<Served, Refusal>
    ensures { TakesClaim params.now bytes.now result }
{
    let claim = read_claim(alloc, bytes)?;
    let _allowed = params.limit(); // for its clause
    let params = params.for_nodes(claim.image.nodes());
    match serve(alloc, &claim.image, &params, claim.turns.members()) {
        Ok(served) => Ok(served),
        Err(fault) => Err(refusal_of_serve(fault)),
    }
}

// Why a claim isn't scheduled.
fn refusal_of_serve(fault: ServeErr) -> Refusal
    ensures { result ≡ refusal_of_serve fault }
{
    match fault {
        ServeErr::DoesNotFit { number, most } => {
            Refusal::Fault(InputErr::LimitDoesNotFit(number, most))
        }
        ServeErr::NotTaken { turn, why } => Refusal::Fault(match why {
            Hindrance::NotReady => InputErr::NotReady(turn),
            Hindrance::NotCurrent => InputErr::NotCurrent(turn),
            Hindrance::AboveLimit => InputErr::AboveLimit(turn),
        }),
        ServeErr::NotFinished => Refusal::Fault(InputErr::Unfinished),
        ServeErr::NoMemory => Refusal::NoMemory,
    }
}
