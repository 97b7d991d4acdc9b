ghost use Rattle.std.specs.Prelude.{◌≡◌, ◌<◌, ◌/◌, ◌%◌, find, is_some, IfSome};
ghost use Rattle.law_turns.specs.Orders.{is_quiet};
ghost use Rattle.alw_image.specs.Images.{IsImage, context_count, node_count};
ghost use Rattle.alw_model.specs.Ends.{IsEnd};
ghost use Rattle.alw_model.specs.Machine.{any_trapped};
ghost use Rattle.alw_mesh.specs.Histories.{IsRun, state_of};
ghost use Rattle.alw_mesh.specs.Ends.{next_events};
ghost use Rattle.alw_serve.specs.Serving.{Serves, HasBegun, TakesTurns, IsOver, TakesTurn, Settles, Hinders};

use crate::errors::{Hindrance, ServeErr};
use alw_image::{Image, Params};
use alw_mesh::Machine;
use alw_model::{Did, Ended};
use alw_msg::Event;
use alw_num::{NoMemory, NodeNo};
use std::alloc::Global;

/// A machine in which contexts have taken given turns, and how its run has ended.
#[derive(Drop)]
pub struct Served {
    pub machine: Machine,
    pub ended: Ended,
}

/// A machine in which contexts take these turns, in this order, each by its number. A turn is taken by its
/// context's instruction; where that misses, what is on its way is delivered and handled, always the first by
/// node, a packet before messages, and sender, and then the instruction is taken again.
pub fn serve(
    alloc: Global,
    image: &Image,
    params: &Params,
    turns: &[u32],
) -> Result<Served, ServeErr>
    ensures { Serves image.now params.now turns.now result }
{
    let mut machine = Machine::start(alloc, image, params)?;
    let ended = take_turns(&mut machine, turns)?;
    Ok(Served { machine, ended })
}

// Takes turns one by one, up to the first that can't be taken, and looks whether they come to an end.
fn take_turns(machine: &mut Machine, turns: &[u32]) -> Result<Ended, ServeErr>
    requires { HasBegun machine.old }
    ensures { TakesTurns machine.old turns.now machine.new result }
{
    for turn in 0..turns.len() {
        if let Some(why) = take_turn(machine, turns[turn])? {
            return Err(ServeErr::NotTaken {
                turn: turn as u32,
                why,
            });
        }
    }
    let Some(ended) = end_of(machine) else {
        return Err(ServeErr::NotFinished);
    };
    Ok(ended)
}

// How the run has ended: all contexts have halted and nothing is on its way, or one has trapped.
fn end_of(machine: &Machine) -> Option<Ended>
    ensures run { IsRun machine.now }
    ensures over { IsOver machine.now (is_some result) }
    ensures end { IfSome result (λ ended. IsEnd machine.now.image machine.now.parameters machine.now.journal ended) }
{
    match machine.ended() {
        None | Some(Ended::Limit(_)) => None,
        Some(ended) => Some(ended),
    }
}

// Takes a context's turn, or tells why it can't be taken.
fn take_turn(machine: &mut Machine, context: u32) -> Result<Option<Hindrance>, NoMemory>
    ensures { TakesTurn machine.old context machine.new result }
{
    loop {
        if let Some(why) = hindrance(machine, context) {
            return Ok(Some(why));
        }
        let node = node_of(machine, context);
        if let Did::Turn { .. } = machine.take(Event::Instr { node })?.did {
            return Ok(None);
        }
        if !settle(machine)? {
            return Ok(Some(Hindrance::AboveLimit));
        }
    }
}

// What stands against a context's instruction, where anything does.
fn hindrance(machine: &Machine, context: u32) -> Option<Hindrance>
    ensures run { IsRun machine.now }
    ensures why { Hinders machine.now context result }
{
    if has_trapped(machine) || context >= machine.image().all_contexts() {
        return Some(Hindrance::NotReady);
    }
    if !machine.status(context).is_ready() {
        return Some(Hindrance::NotReady);
    }
    let node = node_of(machine, context);
    if machine.current(node) != Some(slot_of(machine, context)) {
        return Some(Hindrance::NotCurrent);
    }
    if !machine.may(Event::Instr { node }) {
        return Some(Hindrance::AboveLimit);
    }
    None
}

// A context has trapped.
fn has_trapped(machine: &Machine) -> bool
    ensures run { IsRun machine.now }
    ensures trapped { result ≡ any_trapped (state_of machine.now) }
{
    matches!(machine.ended(), Some(Ended::Trapped(_)))
}

// The node of a context.
fn node_of(machine: &Machine, context: u32) -> NodeNo
    requires image { IsImage machine.now.image }
    requires here { context < context_count machine.now.image }
    ensures node { result.0 ≡ context / machine.now.image.contexts }
    ensures exists { result.0 < node_count machine.now.image }
{
    NodeNo((context / u32::from(machine.image().contexts())) as u16)
}

// The slot of a context in its node.
fn slot_of(machine: &Machine, context: u32) -> u8
    requires { IsImage machine.now.image }
    ensures { result ≡ context % machine.now.image.contexts }
{
    (context % u32::from(machine.image().contexts())) as u8
}

// Takes deliveries and actions of the handler, always the first that may be next, until nothing is on its
// way, or none may be next. Answers whether nothing is.
fn settle(machine: &mut Machine) -> Result<bool, NoMemory>
    requires { IsRun machine.old }
    ensures { Settles machine.old machine.new result }
{
    while !machine.settled() {
        let Some(event) = first_quiet(machine) else {
            return Ok(false);
        };
        machine.take(event)?;
    }
    Ok(true)
}

// The first delivery or action of the handler that may be next, in the schedule's order.
fn first_quiet(machine: &Machine) -> Option<Event>
    ensures { result ≡ find is_quiet (next_events machine.now) }
{
    for k in 0..machine.events() {
        let event = machine.event(k);
        if matches!(event, Event::Handle { .. } | Event::Deliver { .. }) {
            return Some(event);
        }
    }
    None
}
