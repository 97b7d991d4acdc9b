ghost use Rattle.std.specs.Prelude.{◌≡◌, ◌++◌, OnOk, Some, IsTrue};
ghost use Rattle.alw_msg.specs.declared.events.Event.TheVariants as events;
ghost use Rattle.alw_model.specs.Contexts.{running};
ghost use Rattle.alw_model.specs.Machine.{stepped_by};
ghost use Rattle.alw_mesh.specs.Histories.{grown, may_be_next, state_of};
ghost use Rattle.alw_mesh.specs.Readings.{node_in};
ghost use Rattle.alw_effects.specs.Effects.{outcome_text};
ghost use Rattle.alw_turns.specs.Sights.{IsSeenOf, done_by};
ghost use Rattle.alw_turns.specs.Turns.{missed_text, did_text, slot_did, instr_text};

use crate::pieces::{put_ends, put_misses, put_slot};
use crate::sights::{TurnBefore, bytes_needed, look};
use alw_effects::put_effect;
use alw_mesh::Machine;
use alw_model::Did;
use alw_msg::Event;
use alw_num::{NoMemory, NodeNo};
use alw_text::Text;
use sparc_table::{Need, Outcome};

/// An instruction of a node happens, and what it did is appended.
pub fn put_turn(text: &mut Text, machine: &mut Machine, node: NodeNo) -> Result<(), NoMemory>
    requires { IsTrue (may_be_next machine.old (events.Instr node)) }
    ensures machine { OnOk result (machine.new ≡ grown machine.old (events.Instr node)) }
    ensures text { OnOk result (text.new ≡ text.old ++ instr_text machine.old.image machine.old.parameters (node_in machine.old node.0) (node_in machine.new node.0) (stepped_by machine.old.image machine.old.parameters (state_of machine.old) (events.Instr node)).did) }
{
    match machine.current(node) {
        Some(slot) => put_slot_turn(text, machine, node, slot),
        None => {
            machine.take(Event::Instr { node })?;
            Ok(())
        }
    }
}

// The same of the slot that runs: where it stands, what it did, and the line whose hold it ended.
fn put_slot_turn(
    text: &mut Text,
    machine: &mut Machine,
    node: NodeNo,
    slot: u8,
) -> Result<(), NoMemory>
    requires may { IsTrue (may_be_next machine.old (events.Instr node)) }
    requires runs { running (node_in machine.old node.0).slots (node_in machine.old node.0).current ≡ Some slot }
    ensures machine { OnOk result (machine.new ≡ grown machine.old (events.Instr node)) }
    ensures text { OnOk result (text.new ≡ text.old ++ slot_did machine.old.image machine.old.parameters (node_in machine.old node.0) (node_in machine.new node.0) (stepped_by machine.old.image machine.old.parameters (state_of machine.old) (events.Instr node)).did slot) }
{
    let _run = machine.journal(); // for its clause
    let seen = look(machine, node, slot);
    put_slot(
        text,
        machine.image().code().words(),
        slot,
        &seen.before.regs,
    )?;
    let moment = machine.take(Event::Instr { node })?;
    put_did(text, machine, &seen, moment.did)?;
    put_ends(text, seen.hold)?;
    Ok(())
}

// What a slot did: its turn or its miss.
fn put_did(text: &mut Text, machine: &Machine, seen: &TurnBefore, did: Did) -> Result<(), NoMemory>
    requires { IsSeenOf machine.now seen.now }
    ensures { OnOk result (text.new ≡ text.old ++ did_text did (done_by machine.now.image machine.now.parameters seen.now (node_in machine.now seen.now.node.0)) (missed_text seen.now.before.need seen.now.waits)) }
{
    match did {
        Did::Turn { outcome, .. } => put_outcome(text, machine, seen, outcome),
        Did::Missed { .. } => put_missed(text, seen.before.need, seen.waits),
        _ => Ok(()),
    }
}

// A turn by its outcome, and by the registers and the line's bytes now.
fn put_outcome(
    text: &mut Text,
    machine: &Machine,
    seen: &TurnBefore,
    outcome: Outcome,
) -> Result<(), NoMemory>
    requires { IsSeenOf machine.now seen.now }
    ensures { OnOk result (text.new ≡ text.old ++ outcome_text outcome (done_by machine.now.image machine.now.parameters seen.now (node_in machine.now seen.now.node.0))) }
{
    let code = machine.image().code().words();
    let regs = machine.slot(seen.node, seen.slot).regs();
    let body = bytes_needed(machine, seen.node, seen.before.need);
    put_effect(text, code, &seen.before, outcome, &regs, &body)
}

// A miss: the line that is needed, and whether the slot opens a transaction on it or waits for one.
fn put_missed(text: &mut Text, need: Need, waits: bool) -> Result<(), NoMemory>
    ensures { OnOk result (text.new ≡ text.old ++ missed_text need waits) }
{
    match need {
        Need::Copy { line, mode } => put_misses(text, line, mode, waits),
        _ => Ok(()),
    }
}
