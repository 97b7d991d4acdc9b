ghost use Rattle.std.specs.Prelude.{◌≡◌, ◌++◌, OnOk, codes};
ghost use Rattle.std.specs.Fmt.{decimal};
ghost use Rattle.std.specs.List.{flat_map};
ghost use Rattle.alw_trace.specs.Texts.{event_text, entry_line, entries_text};

use alw_msg::{Entry, Event, Journal};
use alw_num::{NoMemory, NodeNo};
use alw_text::{Spell, Text, put_number};

/// The entries of a journal, behind their number.
#[tactic(auto, unfolding(crate::specs::Texts::entries_text))]
pub fn put_journal(text: &mut Text, journal: &Journal) -> Result<(), NoMemory>
    ensures { OnOk result (text.new ≡ text.old ++ entries_text journal.now) }
{
    put_number(text, b"entries ", u64::from(journal.len()))?;
    text.put(b"\n")?;
    put_entries(text, journal.members())
}

fn put_entries(text: &mut Text, entries: &[Entry]) -> Result<(), NoMemory>
    ensures { OnOk result (text.new ≡ text.old ++ flat_map entry_line entries.now) }
{
    for entry in entries {
        put_entry(text, entry)?;
    }
    Ok(())
}

// An entry: its stamp and its event.
fn put_entry(text: &mut Text, entry: &Entry) -> Result<(), NoMemory>
    ensures { OnOk result (text.new ≡ text.old ++ entry_line entry.now) }
{
    text.put_decimal(u64::from(entry.stamp))?;
    put_event(text, entry.event)?;
    text.put(b"\n")?;
    Ok(())
}

/// An event behind a blank: its letter and what it names; of a delivery the sender comes first.
pub fn put_event(text: &mut Text, event: Event) -> Result<(), NoMemory>
    ensures { OnOk result (text.new ≡ text.old ++ event_text event) }
{
    match event {
        Event::Instr { node } => put_number(text, b" I ", u64::from(node.0)),
        Event::Handle { node } => put_number(text, b" H ", u64::from(node.0)),
        Event::Deliver { from, to } => put_pair(text, b" D ", from, u32::from(to.0)),
        Event::Evict { node, set } => put_pair(text, b" E ", node, set),
    }
}

// A word, a node and a number.
fn put_pair(text: &mut Text, word: &[u8], node: NodeNo, number: u32) -> Result<(), NoMemory>
    ensures { OnOk result (text.new ≡ text.old ++ (word.now ++ (decimal node.0 ++ (codes " " ++ decimal number)))) }
{
    put_number(text, word, u64::from(node.0))?;
    put_number(text, b" ", u64::from(number))?;
    Ok(())
}
