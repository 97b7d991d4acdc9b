ghost use Rattle.alw_mesh.specs.Limits.{most_steps};
ghost use Rattle.alw_answers.specs.Outputs.{Gives};
ghost use Rattle.alw_runs.specs.Replaying.{IsNoReplay};
ghost use Rattle.alw_cuts.specs.Routing.{Routes};

use alw_answers::{Ending, Output, Refusal};
use alw_mesh::MachineParts;
use alw_route::{Carried, carry, route_text};
use alw_runs::end_of_trace;
use alw_trace::read_trace;
use std::alloc::Global;

/// Carries the messages of the trace that bytes spell through the routers of its mesh, in the order that a
/// seed draws, and tells the loads of the wires.
pub fn route_bytes(alloc: Global, seed: u64, bytes: &[u8]) -> Result<Output, Refusal>
    ensures { Gives (Routes bytes.now) (IsNoReplay most_steps bytes.now) result }
{
    let trace = read_trace(alloc, bytes)?;
    let Carried {
        machine,
        kept,
        hops,
    } = carry(alloc, &trace.image, &trace.params, &trace.journal)?;
    end_of_trace(&trace, &machine, kept)?;
    let text = route_text(alloc, &machine, hops, seed)?;
    let MachineParts { journal, .. } = machine.into_parts();
    Ok(Output {
        text,
        ending: Ending::Fine,
        journal,
        merged: 0,
    })
}
