ghost use Rattle.std.specs.Prelude.{◌≡◌, ◌<◌};
ghost use Rattle.std.specs.Option.{option_map};
ghost use Rattle.alw_ctx.specs.Residents.{number_of};
ghost use Rattle.alw_image.specs.Images.{node_count, line_count};
ghost use Rattle.alw_model.specs.Caches.{set_of};
ghost use Rattle.alw_mesh.specs.Readings.{node_in};
ghost use Rattle.alw_effects.specs.Before.{IsLineOf};
ghost use Rattle.alw_turns.specs.Sights.{seen_of};
ghost use Rattle.alw_turns.specs.Turns.{is_waited, bytes_in_set, bytes_needed};

use alw_effects::SlotBefore;
use alw_mesh::Machine;
use alw_num::{Line, LineNo, NodeNo};
use sparc_exec::need;
use sparc_table::Need;

/// What is read of a slot of a node before its turn: the line that it has a hold on, whether a transaction is open on
/// the line that it needs, and what its turn is told from. The bytes of that line are those of the copy in its set.
#[derive(Clone, Copy)]
pub struct TurnBefore {
    pub node: NodeNo,
    pub slot: u8,
    pub hold: Option<u32>,
    pub waits: bool,
    pub before: SlotBefore,
}

/// What is read of a slot now.
pub fn look(machine: &Machine, node: NodeNo, slot: u8) -> TurnBefore
    requires node { node.0 < node_count machine.now.image }
    requires slot { slot < machine.now.image.contexts }
    ensures { result ≡ seen_of machine.now.image machine.now.parameters node.0 (node_in machine.now node.0) slot }
{
    let seat = machine.slot(node, slot);
    let regs = seat.regs();
    let image = machine.image();
    let need = need(image.code().words(), &regs, image.lines());
    TurnBefore {
        node,
        slot,
        hold: number_of(seat.hold()),
        waits: is_waited(machine, node, need),
        before: SlotBefore {
            regs,
            need,
            body: bytes_needed(machine, node, need),
        },
    }
}

fn number_of(line: Option<LineNo>) -> Option<u32>
    ensures { result ≡ option_map number_of line }
{
    line.map(|line| line.0)
}

// A transaction on the line that is needed is open.
fn is_waited(machine: &Machine, node: NodeNo, need: Need) -> bool
    requires node { node.0 < node_count machine.now.image }
    requires line { IsLineOf (line_count machine.now.image) need }
    ensures { result ≡ is_waited need (node_in machine.now node.0).transactions }
{
    match need {
        Need::Copy { line, .. } => machine.pending(node, line).is_some(),
        _ => false,
    }
}

/// The bytes of the copy in the set of the line that is needed: zero where there is none.
pub fn bytes_needed(machine: &Machine, node: NodeNo, need: Need) -> Line
    requires { node.0 < node_count machine.now.image }
    ensures { result ≡ bytes_needed machine.now.parameters.sets (node_in machine.now node.0).cache need }
{
    match need {
        Need::Copy { line, .. } => bytes_in(machine, node, line),
        _ => Line::ZERO,
    }
}

// The bytes of the copy in a line's set.
fn bytes_in(machine: &Machine, node: NodeNo, line: LineNo) -> Line
    requires { node.0 < node_count machine.now.image }
    ensures { result ≡ bytes_in_set (node_in machine.now node.0).cache (set_of machine.now.parameters.sets line.0) }
{
    let set = line.0 % machine.params().sets();
    match machine.cached(node, set) {
        Some((_line, _mode, body)) => body,
        None => Line::ZERO,
    }
}
