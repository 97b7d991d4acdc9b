ghost use Rattle.std.specs.Prelude.{◌≡◌, ◌<◌, ◌%◌, cond, nat_lt, None, Some, IfOk, OnErr, IsTrue};
ghost use Rattle.alw_image.specs.Images.{node_count};
ghost use Rattle.alw_mesh.specs.Histories.{may_be_next};
ghost use Rattle.alw_mesh.specs.Ends.{HasPassed};
ghost use Rattle.alw_sched.specs.Schedules.{Finishes, end_in, asked_node, asked_eviction, is_evicted, picked};

use alw_mesh::Machine;
use alw_model::Ended;
use alw_msg::Event;
use alw_num::{Draws, NoMemory, NodeNo};

/// Takes the events that the draws of a seed pick, until an end. Where memory is refused, the machine
/// stands after the events before.
pub fn finish(machine: &mut Machine, seed: u64) -> Result<Ended, NoMemory>
    ensures { Finishes machine.old seed machine.new result }
{
    let mut draws = Draws { state: seed };
    let mut is_quiet = false;
    loop {
        // Behind a quiet turn no end holds, as before it.
        if !is_quiet && let Some(ended) = machine.ended() {
            return Ok(ended);
        }
        let event = pick(machine, draws.draw());
        is_quiet = take(machine, event)?;
    }
}

// Takes an event that may be next, and answers whether it is known to have been a quiet turn, behind
// which the end stays. A turn and a delivery have a compiled way of their own each.
fn take(machine: &mut Machine, event: Event) -> Result<bool, NoMemory>
    requires { IsTrue (may_be_next machine.old event) }
    ensures ok { IfOk result (λ quiet. HasPassed machine.old event machine.new quiet) }
    ensures err { OnErr result (machine.new ≡ machine.old) }
{
    match event {
        Event::Instr { node } => Ok(machine.take(Event::Instr { node })?.quiet),
        Event::Deliver { from, to } => Ok(machine.take(Event::Deliver { from, to })?.quiet),
        other => Ok(machine.take(other)?.quiet),
    }
}

// The event that a drawn number picks, where no end holds.
fn pick(machine: &Machine, number: u32) -> Event
    requires { end_in machine.now ≡ None }
    ensures { picked machine.now number ≡ Some result }
{
    match asked_eviction(machine, number) {
        Some(eviction) => eviction,
        None => machine.drawn(number),
    }
}

// The eviction that a number asks for, where it is made.
fn asked_eviction(machine: &Machine, number: u32) -> Option<Event>
    ensures { result ≡ cond (is_evicted machine.now number) (Some (asked_eviction machine.now number)) None }
{
    if !is_tried(machine, number) {
        return None;
    }
    let node = asked_node(machine, number);
    let set = (number >> 16) % machine.params().sets();
    let eviction = Event::Evict { node, set };
    if machine.is_live(node) && machine.may(eviction) {
        Some(eviction)
    } else {
        None
    }
}

// The node whose eviction a number asks for.
fn asked_node(machine: &Machine, number: u32) -> NodeNo
    ensures node { result.0 ≡ asked_node machine.now number }
    ensures exists { result.0 < node_count machine.now.image }
{
    NodeNo(((number >> 8) % u32::from(machine.nodes())) as u16)
}

// The number's low byte says that an eviction is to be tried.
fn is_tried(machine: &Machine, number: u32) -> bool
    ensures { result ≡ nat_lt (number % 256) machine.now.parameters.evict }
{
    number % 256 < u32::from(machine.params().evict())
}
