ghost use Rattle.std.specs.Prelude.{◌≡◌, ◌<◌, ◌++◌, OnOk};
ghost use Rattle.std.specs.List.{flat_map};
ghost use Rattle.std.specs.Option.{option_map};
ghost use Rattle.alw_image.specs.Images.{node_count, context_count};
ghost use Rattle.alw_ctx.specs.Residents.{number_of};
ghost use Rattle.alw_mesh.specs.Histories.{state_of};
ghost use Rattle.alw_save.specs.Lines.{flag_digit, spaced_word, counters_text, registers_text, context_line};
ghost use Rattle.alw_save.specs.States.{slot_in, slot_text, contexts_text};

use crate::pieces::put_word;
use alw_mesh::Machine;
use alw_msg::Status;
use alw_num::{LineNo, NoMemory, NodeNo};
use alw_report::put_status;
use alw_text::{Text, put_number};
use sparc_table::Regs;

/// The contexts of a node, by slot.
pub fn put_contexts(text: &mut Text, machine: &Machine, n: NodeNo) -> Result<(), NoMemory>
    requires { n.0 < node_count machine.now.image }
    ensures { OnOk result (text.new ≡ text.old ++ contexts_text machine.now.image (state_of machine.now) n.0) }
{
    let contexts = u32::from(machine.image().contexts());
    let first = u32::from(n.0) * contexts;
    for slot in 0..contexts {
        put_slot(text, machine, first + slot)?;
    }
    Ok(())
}

// A context of the machine, by its number.
fn put_slot(text: &mut Text, machine: &Machine, context: u32) -> Result<(), NoMemory>
    requires { context < context_count machine.now.image }
    ensures { OnOk result (text.new ≡ text.old ++ slot_text context (slot_in machine.now.image (state_of machine.now) context)) }
{
    let regs = machine.regs(context);
    let hold = machine.held(context);
    put_context(text, context, hold, machine.status(context), &regs)
}

// A context: what it does, and its registers.
#[tactic(auto, unfolding(crate::specs::Lines::context_line))]
fn put_context(
    text: &mut Text,
    context: u32,
    hold: Option<LineNo>,
    status: Status,
    regs: &Regs,
) -> Result<(), NoMemory>
    ensures { OnOk result (text.new ≡ text.old ++ context_line context (option_map number_of hold) status regs.now) }
{
    put_number(text, b"context ", u64::from(context))?;
    text.put(b" ")?;
    put_status(text, hold, status)?;
    put_counters(text, regs)?;
    put_registers(text, regs)?;
    text.put(b"\n")?;
    Ok(())
}

// PC, nPC, Y, and the condition codes.
#[tactic(auto, unfolding(crate::specs::Lines::counters_text))]
fn put_counters(text: &mut Text, regs: &Regs) -> Result<(), NoMemory>
    ensures { OnOk result (text.new ≡ text.old ++ counters_text regs.now) }
{
    put_word(text, regs.pc)?;
    put_word(text, regs.npc)?;
    put_word(text, regs.y)?;
    text.put(b" ")?;
    text.put(&[flag(regs.n), flag(regs.z), flag(regs.v), flag(regs.c)])?;
    Ok(())
}

// A condition code as a digit.
fn flag(set: bool) -> u8
    ensures { result ≡ flag_digit set }
{
    if set { b'1' } else { b'0' }
}

// The registers but for register 0.
#[tactic(auto, unfolding(crate::specs::Lines::registers_text))]
fn put_registers(text: &mut Text, regs: &Regs) -> Result<(), NoMemory>
    ensures { OnOk result (text.new ≡ text.old ++ registers_text regs.now) }
{
    let (_zero, others) = regs.r.split_at(1);
    put_words(text, others)
}

// Words, each behind a blank.
fn put_words(text: &mut Text, words: &[u32]) -> Result<(), NoMemory>
    ensures { OnOk result (text.new ≡ text.old ++ flat_map spaced_word words.now) }
{
    for word in words {
        put_word(text, *word)?;
    }
    Ok(())
}
