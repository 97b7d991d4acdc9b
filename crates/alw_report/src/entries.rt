ghost use Rattle.std.specs.Prelude.{◌≡◌, ◌++◌, OnOk};
ghost use Rattle.alw_num.specs.NodeSets.{members, nodes_of};
ghost use Rattle.alw_report.specs.Reports.{state_text, meta_text, states_text, pointers_text, directory_line};

use crate::values::DirectoryLine;
use alw_num::{Meta, NoMemory, NodeSet, State};
use alw_text::{Spell, Text, put_nodes, put_number};

/// An entry of the directory.
pub fn put_entry(text: &mut Text, entry: &DirectoryLine) -> Result<(), NoMemory>
    ensures { OnOk result (text.new ≡ text.old ++ directory_line entry.now) }
{
    put_states(text, entry)?;
    put_pointers(text, entry.hardware, entry.software, entry.acks)?;
    text.put(b"\n")?;
    Ok(())
}

// Its line, state and meta state.
#[tactic(auto, unfolding(crate::specs::Reports::states_text))]
fn put_states(text: &mut Text, entry: &DirectoryLine) -> Result<(), NoMemory>
    ensures { OnOk result (text.new ≡ text.old ++ states_text entry.now) }
{
    text.put_decimal(u64::from(entry.line.0))?;
    text.put(b" ")?;
    text.put(state_name(entry.state).as_bytes())?;
    text.put(b" ")?;
    text.put(meta_name(entry.meta).as_bytes())?;
    Ok(())
}

/// The nodes that hardware and those that software points to, and the answers that are still to come.
#[tactic(auto, unfolding(crate::specs::Reports::pointers_text))]
pub fn put_pointers(
    text: &mut Text,
    hardware: NodeSet,
    software: NodeSet,
    acks: u32,
) -> Result<(), NoMemory>
    ensures { OnOk result (text.new ≡ text.old ++ pointers_text (members (nodes_of hardware)) (members (nodes_of software)) acks) }
{
    text.put(b" hw ")?;
    put_nodes(text, hardware)?;
    text.put(b" sw ")?;
    put_nodes(text, software)?;
    put_number(text, b" acks ", u64::from(acks))?;
    Ok(())
}

/// The name of a state of the home table.
pub fn state_name(state: State) -> &'static str
    ensures { result.now ≡ state_text state }
{
    match state {
        State::RO => "RO",
        State::RW => "RW",
        State::RT => "RT",
        State::WT => "WT",
    }
}

/// The name of a meta state.
pub fn meta_name(meta: Meta) -> &'static str
    ensures { result.now ≡ meta_text meta }
{
    match meta {
        Meta::Normal => "normal",
        Meta::Progress => "progress",
        Meta::TrapWrite => "trap-write",
        Meta::TrapAlways => "trap-always",
    }
}
