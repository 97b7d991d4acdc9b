ghost use Rattle.std.specs.Prelude.{◌≡◌, ◌++◌, IfOk, OnOk};
ghost use Rattle.std.specs.List.{flat_map};
ghost use Rattle.alw_report.specs.Reports.{print_line, run_line, word_line};
ghost use Rattle.alw_endings.specs.Texts.{title, places_line, search_word, search_line, head_text, halt_line, halt_text, halts_from, halts_text, trap_line, trap_place, trap_text, traps_from, traps_text, stuck_answer, stuck_text, lists_text, outcomes_text};

use crate::values::{HaltEnd, HaltEnds, Outcomes, StuckRun, TrapEnd, TrapEnds};
use alw_num::NoMemory;
use alw_report::{
    put_heading, put_print_lines, put_run_lines, put_runs, put_sizes, put_word_lines,
};
use alw_text::{Spell, Text, put_number};
use std::alloc::Global;

/// The text of what an image can come to.
#[tactic(auto, unfolding(crate::specs::Texts::outcomes_text))]
pub fn outcomes_text(alloc: Global, told: &Outcomes) -> Result<Text, NoMemory>
    ensures { IfOk result (λ text. text ≡ outcomes_text told.now) }
{
    let mut text = Text::empty(alloc);
    put_head(&mut text, told)?;
    put_lists(&mut text, told)?;
    text.put(b"end\n")?;
    Ok(text)
}

// The first four lines.
#[tactic(auto, unfolding(crate::specs::Texts::head_text))]
fn put_head(text: &mut Text, told: &Outcomes) -> Result<(), NoMemory>
    ensures { OnOk result (text.new ≡ text.old ++ head_text told.now) }
{
    put_title(text)?;
    put_sizes(text, told.sizes)?;
    put_places(text, told.places)?;
    put_search(text, told.is_complete)?;
    Ok(())
}

#[tactic(auto, unfolding(crate::specs::Texts::title))]
fn put_title(text: &mut Text) -> Result<(), NoMemory>
    ensures { OnOk result (text.new ≡ text.old ++ title) }
{
    text.put(b"ALEWIFE OUTCOMES 1\n")
}

#[tactic(auto, unfolding(crate::specs::Texts::places_line))]
fn put_places(text: &mut Text, places: u64) -> Result<(), NoMemory>
    ensures { OnOk result (text.new ≡ text.old ++ places_line places) }
{
    put_number(text, b"places ", places)?;
    text.put(b"\n")?;
    Ok(())
}

#[tactic(auto, unfolding(crate::specs::Texts::search_line))]
fn put_search(text: &mut Text, complete: bool) -> Result<(), NoMemory>
    ensures { OnOk result (text.new ≡ text.old ++ search_line complete) }
{
    text.put(b"search ")?;
    put_search_word(text, complete)?;
    text.put(b"\n")?;
    Ok(())
}

// The search ended by itself, or it stopped.
fn put_search_word(text: &mut Text, complete: bool) -> Result<(), NoMemory>
    ensures { OnOk result (text.new ≡ text.old ++ search_word complete) }
{
    if complete {
        text.put(b"complete")
    } else {
        text.put(b"stopped")
    }
}

// The ends of both kinds, and whether a place is stuck.
#[tactic(auto, unfolding(crate::specs::Texts::lists_text))]
fn put_lists(text: &mut Text, told: &Outcomes) -> Result<(), NoMemory>
    ensures { OnOk result (text.new ≡ text.old ++ lists_text told.now) }
{
    put_halts(text, &told.halts)?;
    put_traps(text, &told.traps)?;
    put_stuck(text, &told.stuck)?;
    Ok(())
}

// The ends at which all contexts have halted.
#[tactic(auto, unfolding(crate::specs::Texts::halts_text))]
fn put_halts(text: &mut Text, halts: &HaltEnds) -> Result<(), NoMemory>
    ensures { OnOk result (text.new ≡ text.old ++ halts_text halts.now) }
{
    put_heading(text, b"outcomes", halts.len())?;
    put_each_halt(text, halts.members())
}

fn put_each_halt(text: &mut Text, halts: &[HaltEnd]) -> Result<(), NoMemory>
    ensures { OnOk result (text.new ≡ text.old ++ halts_from 0 halts.now) }
{
    for (number, halt) in halts.iter().enumerate() {
        put_halt(text, number as u64, halt)?;
    }
    Ok(())
}

#[tactic(auto, unfolding(crate::specs::Texts::halt_text))]
fn put_halt(text: &mut Text, number: u64, halt: &HaltEnd) -> Result<(), NoMemory>
    ensures { OnOk result (text.new ≡ text.old ++ halt_text number halt.now) }
{
    put_halt_line(text, number, halt)?;
    put_print_lines(text, halt.prints.members())?;
    put_word_lines(text, halt.memory.members())?;
    put_run_lines(text, halt.runs.members())?;
    Ok(())
}

#[tactic(auto, unfolding(crate::specs::Texts::halt_line))]
fn put_halt_line(text: &mut Text, number: u64, halt: &HaltEnd) -> Result<(), NoMemory>
    ensures { OnOk result (text.new ≡ text.old ++ halt_line number halt.now) }
{
    put_number(text, b"outcome ", number)?;
    put_number(text, b" prints ", u64::from(halt.prints.len()))?;
    put_number(text, b" memory ", u64::from(halt.memory.len()))?;
    put_number(text, b" runs ", u64::from(halt.runs.len()))?;
    text.put(b"\n")?;
    Ok(())
}

// The ends at which a turn traps.
#[tactic(auto, unfolding(crate::specs::Texts::traps_text))]
fn put_traps(text: &mut Text, traps: &TrapEnds) -> Result<(), NoMemory>
    ensures { OnOk result (text.new ≡ text.old ++ traps_text traps.now) }
{
    put_heading(text, b"traps", traps.len())?;
    put_each_trap(text, traps.members())
}

fn put_each_trap(text: &mut Text, traps: &[TrapEnd]) -> Result<(), NoMemory>
    ensures { OnOk result (text.new ≡ text.old ++ traps_from 0 traps.now) }
{
    for (number, trap) in traps.iter().enumerate() {
        put_trap(text, number as u64, trap)?;
    }
    Ok(())
}

fn put_trap(text: &mut Text, number: u64, trap: &TrapEnd) -> Result<(), NoMemory>
    ensures { OnOk result (text.new ≡ text.old ++ trap_text number trap.now) }
{
    put_trap_line(text, number, trap)?;
    put_run_lines(text, trap.runs.members())?;
    Ok(())
}

#[tactic(auto, unfolding(crate::specs::Texts::trap_line))]
fn put_trap_line(text: &mut Text, number: u64, trap: &TrapEnd) -> Result<(), NoMemory>
    ensures { OnOk result (text.new ≡ text.old ++ trap_line number trap.now) }
{
    put_number(text, b"trap ", number)?;
    put_trap_place(text, trap)?;
    put_number(text, b" runs ", u64::from(trap.runs.len()))?;
    text.put(b"\n")?;
    Ok(())
}

// Where and how a turn traps.
#[tactic(auto, unfolding(crate::specs::Texts::trap_place))]
fn put_trap_place(text: &mut Text, trap: &TrapEnd) -> Result<(), NoMemory>
    ensures { OnOk result (text.new ≡ text.old ++ trap_place trap.now) }
{
    put_number(text, b" context ", u64::from(trap.context))?;
    text.put(b" pc ")?;
    text.put_hex32(trap.pc)?;
    text.put(b" tt ")?;
    text.put_hex8(trap.tt)?;
    Ok(())
}

// Whether a place is stuck, and the turns that lead to one.
fn put_stuck(text: &mut Text, stuck: &StuckRun) -> Result<(), NoMemory>
    ensures { OnOk result (text.new ≡ text.old ++ stuck_text stuck.now) }
{
    text.put(b"stuck ")?;
    put_stuck_answer(text, stuck)?;
    Ok(())
}

fn put_stuck_answer(text: &mut Text, stuck: &StuckRun) -> Result<(), NoMemory>
    ensures { OnOk result (text.new ≡ text.old ++ stuck_answer stuck.now) }
{
    match stuck {
        StuckRun::No => text.put(b"no\n"),
        StuckRun::Yes(runs) => {
            text.put(b"yes ")?;
            put_runs(text, runs)
        }
        StuckRun::Unknown => text.put(b"unknown\n"),
    }
}
