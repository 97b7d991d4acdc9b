ghost use Rattle.std.specs.Prelude.{◌≡◌, ◌<◌, ◌++◌, OnOk, IfOk, codes};
ghost use Rattle.std.specs.List.{flat_map, range_with_len};
ghost use Rattle.alw_image.specs.Images.{node_count};
ghost use Rattle.alw_mesh.specs.Histories.{state_of};
ghost use Rattle.alw_mesh.specs.Readings.{node_in};
ghost use Rattle.alw_save.specs.Lines.{node_line};
ghost use Rattle.alw_save.specs.States.{line_count, links_from, maps_text, memory_text, node_text, state_lines, state_text};

use crate::contexts::put_contexts;
use crate::maps::{put_copies, put_transactions};
use crate::memory::put_homes;
use crate::messages::{put_links, put_packets};
use alw_mesh::Machine;
use alw_num::{NoMemory, NodeNo};
use alw_text::{Text, put_number};
use std::alloc::Global;

/// The text of a machine's state: its lines behind their number.
#[tactic(auto, unfolding(crate::specs::States::state_text))]
pub fn put_state(alloc: Global, text: &mut Text, machine: &Machine) -> Result<(), NoMemory>
    ensures { OnOk result (text.new ≡ text.old ++ state_text machine.now.image (state_of machine.now)) }
{
    let mut lines = Text::empty(alloc);
    put_lines(&mut lines, machine)?;
    text.put(b"state")?;
    put_number(text, b" ", line_count(lines.bytes()))?;
    text.put(b"\n")?;
    text.put(lines.bytes())?;
    Ok(())
}

// How many lines a text has.
fn line_count(text: &[u8]) -> u64
    ensures { result ≡ line_count text.now }
{
    text.iter().filter(|byte| **byte == b'\n').count() as u64
}

// All lines.
#[tactic(auto, unfolding(crate::specs::States::state_lines))]
fn put_lines(text: &mut Text, machine: &Machine) -> Result<(), NoMemory>
    ensures { OnOk result (text.new ≡ text.old ++ state_lines machine.now.image (state_of machine.now)) }
{
    put_nodes(text, machine)?;
    put_all_links(text, machine)?;
    Ok(())
}

// The nodes.
fn put_nodes(text: &mut Text, machine: &Machine) -> Result<(), NoMemory>
    ensures { OnOk result (text.new ≡ text.old ++ flat_map (node_text machine.now.image (state_of machine.now)) (range_with_len 0 (node_count machine.now.image))) }
{
    for n in 0..machine.nodes() {
        put_node(text, machine, NodeNo(n))?;
    }
    Ok(())
}

// The links.
fn put_all_links(text: &mut Text, machine: &Machine) -> Result<(), NoMemory>
    ensures { OnOk result (text.new ≡ text.old ++ flat_map (links_from machine.now.image (state_of machine.now)) (range_with_len 0 (node_count machine.now.image))) }
{
    for n in 0..machine.nodes() {
        put_links(text, machine, NodeNo(n))?;
    }
    Ok(())
}

// A node.
#[tactic(auto, unfolding(crate::specs::States::node_text))]
fn put_node(text: &mut Text, machine: &Machine, n: NodeNo) -> Result<(), NoMemory>
    requires { n.0 < node_count machine.now.image }
    ensures { OnOk result (text.new ≡ text.old ++ node_text machine.now.image (state_of machine.now) n.0) }
{
    put_node_line(text, n, machine.clock(n), machine.last(n))?;
    put_contexts(text, machine, n)?;
    put_maps(text, machine, n)?;
    put_memory(text, machine, n)?;
    Ok(())
}

// A node's clock and its current slot.
#[tactic(auto, unfolding(crate::specs::Lines::node_line))]
fn put_node_line(text: &mut Text, n: NodeNo, clock: u32, slot: u8) -> Result<(), NoMemory>
    ensures { OnOk result (text.new ≡ text.old ++ node_line n.0 clock slot) }
{
    put_number(text, b"node ", u64::from(n.0))?;
    put_number(text, b" clock ", u64::from(clock))?;
    put_number(text, b" slot ", u64::from(slot))?;
    text.put(b"\n")?;
    Ok(())
}

// Its transactions and its copies.
fn put_maps(text: &mut Text, machine: &Machine, n: NodeNo) -> Result<(), NoMemory>
    requires { n.0 < node_count machine.now.image }
    ensures { OnOk result (text.new ≡ text.old ++ maps_text (node_in machine.now n.0)) }
{
    put_transactions(text, machine, n)?;
    put_copies(text, machine, n)?;
    Ok(())
}

// Its home lines and its packets.
fn put_memory(text: &mut Text, machine: &Machine, n: NodeNo) -> Result<(), NoMemory>
    requires { n.0 < node_count machine.now.image }
    ensures { OnOk result (text.new ≡ text.old ++ memory_text machine.now.image (state_of machine.now) n.0) }
{
    put_homes(text, machine, n)?;
    put_packets(text, machine, n)?;
    Ok(())
}
