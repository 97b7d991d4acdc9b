ghost use Rattle.std.specs.Prelude.{◌≡◌, ◌++◌, OnOk};
ghost use Rattle.std.specs.List.{flat_map};
ghost use Rattle.alw_report.specs.Reports.{heading, run_line, print_line, word_line, directory_line, runs_text, prints_text, memory_text, directory_text, lists_text};

use crate::entries::put_entry;
use crate::values::{DirectoryLine, DirectoryLines, Report};
use alw_msg::{Prints, Stretches, Words};
use alw_num::NoMemory;
use alw_text::{Spell, Text, put_number};

/// The four lists, each behind its heading.
#[tactic(auto, unfolding(crate::specs::Reports::lists_text))]
pub fn put_lists(text: &mut Text, report: &Report) -> Result<(), NoMemory>
    ensures { OnOk result (text.new ≡ text.old ++ lists_text report.now) }
{
    put_runs(text, &report.runs)?;
    put_prints(text, &report.prints)?;
    put_memory(text, &report.memory)?;
    put_directory(text, &report.directory)?;
    Ok(())
}

/// A heading of a list: its name and how many lines follow.
pub fn put_heading(text: &mut Text, name: &[u8], count: u32) -> Result<(), NoMemory>
    ensures { OnOk result (text.new ≡ text.old ++ heading name.now count) }
{
    text.put(name)?;
    put_number(text, b" ", u64::from(count))?;
    text.put(b"\n")?;
    Ok(())
}

/// The stretches of turns.
#[tactic(auto, unfolding(crate::specs::Reports::runs_text))]
pub fn put_runs(text: &mut Text, runs: &Stretches) -> Result<(), NoMemory>
    ensures { OnOk result (text.new ≡ text.old ++ runs_text runs.now) }
{
    put_heading(text, b"runs", runs.len())?;
    put_run_lines(text, runs.members())
}

/// A line for each stretch of turns.
pub fn put_run_lines(text: &mut Text, runs: &[(u32, u32)]) -> Result<(), NoMemory>
    ensures { OnOk result (text.new ≡ text.old ++ flat_map run_line runs.now) }
{
    for run in runs {
        put_run(text, *run)?;
    }
    Ok(())
}

// A stretch of turns: context and number.
fn put_run(text: &mut Text, run: (u32, u32)) -> Result<(), NoMemory>
    ensures { OnOk result (text.new ≡ text.old ++ run_line run) }
{
    text.put_decimal(u64::from(run.0))?;
    put_number(text, b" ", u64::from(run.1))?;
    text.put(b"\n")?;
    Ok(())
}

/// The printed words, each with its context.
#[tactic(auto, unfolding(crate::specs::Reports::prints_text))]
pub fn put_prints(text: &mut Text, prints: &Prints) -> Result<(), NoMemory>
    ensures { OnOk result (text.new ≡ text.old ++ prints_text prints.now) }
{
    put_heading(text, b"prints", prints.len())?;
    put_print_lines(text, prints.members())
}

/// A line for each printed word.
pub fn put_print_lines(text: &mut Text, prints: &[(u32, u32)]) -> Result<(), NoMemory>
    ensures { OnOk result (text.new ≡ text.old ++ flat_map print_line prints.now) }
{
    for print in prints {
        put_print(text, *print)?;
    }
    Ok(())
}

// A printed word.
fn put_print(text: &mut Text, print: (u32, u32)) -> Result<(), NoMemory>
    ensures { OnOk result (text.new ≡ text.old ++ print_line print) }
{
    text.put_decimal(u64::from(print.0))?;
    text.put(b" ")?;
    text.put_hex32(print.1)?;
    text.put(b"\n")?;
    Ok(())
}

/// The words of memory, each with its address.
#[tactic(auto, unfolding(crate::specs::Reports::memory_text))]
pub fn put_memory(text: &mut Text, memory: &Words) -> Result<(), NoMemory>
    ensures { OnOk result (text.new ≡ text.old ++ memory_text memory.now) }
{
    put_heading(text, b"memory", memory.len())?;
    put_word_lines(text, memory.members())
}

/// A line for each word of memory.
pub fn put_word_lines(text: &mut Text, words: &[(u32, u32)]) -> Result<(), NoMemory>
    ensures { OnOk result (text.new ≡ text.old ++ flat_map word_line words.now) }
{
    for word in words {
        put_word(text, *word)?;
    }
    Ok(())
}

// A word of memory.
fn put_word(text: &mut Text, word: (u32, u32)) -> Result<(), NoMemory>
    ensures { OnOk result (text.new ≡ text.old ++ word_line word) }
{
    text.put_hex32(word.0)?;
    text.put(b" ")?;
    text.put_hex32(word.1)?;
    text.put(b"\n")?;
    Ok(())
}

// The entries of the directory.
#[tactic(auto, unfolding(crate::specs::Reports::directory_text))]
fn put_directory(text: &mut Text, directory: &DirectoryLines) -> Result<(), NoMemory>
    ensures { OnOk result (text.new ≡ text.old ++ directory_text directory.now) }
{
    put_heading(text, b"directory", directory.len())?;
    put_entries(text, directory.members())
}

fn put_entries(text: &mut Text, entries: &[DirectoryLine]) -> Result<(), NoMemory>
    ensures { OnOk result (text.new ≡ text.old ++ flat_map directory_line entries.now) }
{
    for entry in entries {
        put_entry(text, entry)?;
    }
    Ok(())
}
