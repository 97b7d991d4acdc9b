ghost use Rattle.std.specs.Prelude.{◌≡◌, ◌<◌, ◌≤◌, ◌==◌, ◌&&◌, not, true, false, None, length, nat_le, map, option_copied, IfOk, IfSome};
ghost use Rattle.std.specs.List.{range_with_len};
ghost use Rattle.std.specs.Arc.{arc_value};
ghost use Rattle.alw_image.specs.Images.{node_count};
ghost use Rattle.alw_model.specs.NodeStates.{stamp_of};
ghost use Rattle.alw_model.specs.Counts.{is_turn};
ghost use Rattle.alw_model.specs.declared.steps.Did.TheVariants.{Turn};
ghost use Rattle.sparc_table.specs.declared.outcomes.Outcome.TheVariants.{Done};
ghost use Rattle.alw_ready.specs.Changes.{hold_count};
ghost use Rattle.alw_node.specs.Nodes.{whole_start, MessageIsGiven};
ghost use Rattle.alw_mesh.specs.Grids.{IsQuietTurn};
ghost use Rattle.alw_mesh.specs.Keeping.{taken_from, after_taking, NodesAreWithin, HasTrapPc, whole_in, may_act, NodeActs};

use alw_image::{Image, Params};
use alw_links::Links;
use alw_model::Did;
use alw_msg::{Entry, Event, Msg, Sends, Status};
use alw_node::{Node, Program};
use alw_num::{NoMemory, NodeNo};
use alw_tally::Moment;
use sparc_table::Outcome;
use std::alloc::Global;
use std::sync::Arc;

/// All nodes of an image at the start, with one program.
pub fn nodes_start(
    alloc: Global,
    image: &Image,
    params: &Params,
    program: &Arc<Program, Global>,
    count: u16,
) -> Result<Vec<Node>, NoMemory>
    requires program { arc_value program.now ≡ image.now.code }
    requires count { count ≡ node_count image.now }
    ensures { IfOk result (λ nodes. nodes.items ≡ map (whole_start image.now params.now) (range_with_len 0 count)) }
{
    let mut nodes = Vec::with_capacity(alloc, usize::from(count))?;
    for n in 0..count {
        nodes.push_reserved(Node::start_shared(alloc, image, params, NodeNo(n), program)?);
    }
    Ok(nodes)
}

/// The message that an event takes, on its link: a delivery takes the head, and nothing else one.
#[inline(always)]
pub fn head(links: &Links, event: Event) -> Option<&Msg>
    requires { NodesAreWithin links.now.nodes event }
    ensures { option_copied result ≡ taken_from links.now event }
{
    match event {
        Event::Deliver { from, to } => links.head(from, to),
        _ => None,
    }
}

/// Takes that message off its link.
#[inline(always)]
pub fn drop_head(links: &mut Links, event: Event)
    requires { NodesAreWithin links.old.nodes event }
    ensures { links.new ≡ after_taking links.old event }
{
    if let Event::Deliver { from, to } = event {
        let _taken = links.take(from, to);
    }
}

/// The stamp of an event that takes this message, at this clock, is within a limit.
#[inline(always)]
pub fn is_in_time(clock: u32, head: Option<&Msg>, limit: u32) -> bool
    ensures { result ≡ nat_le (stamp_of clock (option_copied head.entry)) limit }
{
    match head {
        Some(msg) => clock.max(msg.stamp) < limit,
        None => clock < limit,
    }
}

/// What a node did is a turn that ended a hold, where its number of holds changed or not.
#[inline(always)]
pub fn uses_hold(did: Did, changes_holds: bool) -> bool
    ensures { result ≡ (is_turn did && changes_holds) }
{
    matches!(did, Did::Turn { .. }) && changes_holds
}

/// PC of the slot that trapped, where what a node did is a trapping turn.
#[inline(always)]
pub fn trap_pc(node: &Node, did: Did) -> u32
    ensures { HasTrapPc node.now.state.slots result did }
{
    match did {
        Did::Turn {
            slot,
            outcome: Outcome::Trap { .. },
        } if slot < node.count() => match node.status(slot) {
            Status::Trapped { pc, .. } => pc,
            _ => 0,
        },
        _ => 0,
    }
}

/// What a node did at an event, and whether it has another number of holds than before.
#[derive(Clone, Copy, PartialEq, Eq)]
pub struct Acted {
    pub did: Did,
    pub changes_holds: bool,
}

/// One event of a node, with the message that it takes.
#[inline(always)]
pub fn act(
    nodes: &mut Vec<Node>,
    at: usize,
    event: Event,
    taken: Option<&Msg>,
    sent: &mut Sends,
) -> Acted
    requires here { at < length nodes.old.items }
    requires enabled { may_act (whole_in nodes.old.items at) event (option_copied taken) ≡ true }
    requires taken { MessageIsGiven event (option_copied taken) }
    requires room { node_count (whole_in nodes.old.items at).parts ≤ sent.old.room }
    ensures { NodeActs nodes.old.items nodes.new.items at event (option_copied taken.entry) sent.old sent.new result }
{
    let node = &mut nodes[at];
    let holds = node.holds();
    let did = node.local(event, taken, sent);
    let _fits = sent.free(); // for its clause
    Acted {
        did,
        changes_holds: changes_holds(node, did, holds),
    }
}

// A node has another number of holds than before, when it had this many. A turn gives none.
#[inline(always)]
fn changes_holds(node: &Node, did: Did, before: u32) -> bool
    ensures { result ≡ (not (before == 0 && is_turn did) && not (hold_count node.now.state.slots == before)) }
{
    let ends_none = before == 0 && matches!(did, Did::Turn { .. });
    !ends_none && node.holds() != before
}

/// What happened at an event: its moment, whether it was a turn that ended a hold, the PC of its slot where
/// that trapped, and whether its node has another number of holds than before. Its moment is told as quiet
/// whether the limit is near or not.
#[derive(Clone, Copy, PartialEq, Eq)]
pub struct Happening {
    pub moment: Moment,
    pub used: bool,
    pub pc: u32,
    pub changes_holds: bool,
}

/// The slot of a quiet turn, where an event was one: it was Done, and ended no hold. Behind it, before
/// the limit, the same main events may happen as before it.
#[inline(always)]
pub fn quiet_slot(event: Event, did: Did, changes_holds: bool) -> Option<u8>
    ensures { IfSome result (λ slot. (did ≡ Turn slot Done) × IsQuietTurn event did changes_holds) }
{
    match (event, did) {
        (
            Event::Instr { .. },
            Did::Turn {
                slot,
                outcome: Outcome::Done,
            },
        ) if !changes_holds => Some(slot),
        _ => None,
    }
}

/// What happened at an entry that was a quiet turn of a slot.
#[inline(always)]
pub fn quiet_turn(entry: Entry, slot: u8) -> Happening
    ensures { result ≡ record { moment = record { entry = entry; taken = None; did = Turn slot Done; quiet = true }; used = false; pc = 0; changes_holds = false } }
{
    Happening {
        moment: Moment {
            entry,
            taken: None,
            did: Did::Turn {
                slot,
                outcome: Outcome::Done,
            },
            quiet: true,
        },
        used: false,
        pc: 0,
        changes_holds: false,
    }
}
