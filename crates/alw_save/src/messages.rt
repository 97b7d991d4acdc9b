ghost use Rattle.std.specs.Prelude.{◌≡◌, ◌<◌, ◌++◌, OnOk};
ghost use Rattle.std.specs.List.{flat_map};
ghost use Rattle.alw_image.specs.Images.{node_count};
ghost use Rattle.alw_mesh.specs.Histories.{state_of};
ghost use Rattle.alw_mesh.specs.Readings.{node_in};
ghost use Rattle.alw_save.specs.Lines.{message_text, packet_line, link_line};
ghost use Rattle.alw_save.specs.States.{member_line, link_text, links_from};

use crate::pieces::put_body;
use alw_mesh::Machine;
use alw_msg::Msg;
use alw_num::{NoMemory, NodeNo};
use alw_report::kind_name;
use alw_text::{Text, put_number};

/// The packets of a node, in queue order.
pub fn put_packets(text: &mut Text, machine: &Machine, n: NodeNo) -> Result<(), NoMemory>
    requires { n.0 < node_count machine.now.image }
    ensures { OnOk result (text.new ≡ text.old ++ flat_map packet_line (node_in machine.now n.0).packets) }
{
    for place in 0..machine.packets(n) {
        put_packet(text, machine.packet(n, place))?;
    }
    Ok(())
}

// A packet, if there is one.
fn put_packet(text: &mut Text, packet: Option<Msg>) -> Result<(), NoMemory>
    ensures { OnOk result (text.new ≡ text.old ++ member_line packet_line packet) }
{
    match packet {
        Some(msg) => {
            text.put(b"packet ")?;
            put_message(text, &msg)
        }
        None => Ok(()),
    }
}

/// The messages on the links from a node, by the node that they go to.
pub fn put_links(text: &mut Text, machine: &Machine, from: NodeNo) -> Result<(), NoMemory>
    requires { from.0 < node_count machine.now.image }
    ensures { OnOk result (text.new ≡ text.old ++ links_from machine.now.image (state_of machine.now) from.0) }
{
    for to in 0..machine.nodes() {
        put_link(text, machine, from, NodeNo(to))?;
    }
    Ok(())
}

// The messages on the link of two nodes.
fn put_link(text: &mut Text, machine: &Machine, from: NodeNo, to: NodeNo) -> Result<(), NoMemory>
    requires from { from.0 < node_count machine.now.image }
    requires to { to.0 < node_count machine.now.image }
    ensures { OnOk result (text.new ≡ text.old ++ link_text machine.now.image (state_of machine.now) from.0 to.0) }
{
    for msg in machine.link(from, to) {
        put_sent(text, from, to, msg)?;
    }
    Ok(())
}

// A message on the link of two nodes.
fn put_sent(text: &mut Text, from: NodeNo, to: NodeNo, msg: &Msg) -> Result<(), NoMemory>
    ensures { OnOk result (text.new ≡ text.old ++ link_line from.0 to.0 msg.now) }
{
    put_number(text, b"link ", u64::from(from.0))?;
    put_number(text, b" ", u64::from(to.0))?;
    text.put(b" ")?;
    put_message(text, msg)
}

// A message up to the end of its line.
#[tactic(auto, unfolding(crate::specs::Lines::message_text))]
fn put_message(text: &mut Text, msg: &Msg) -> Result<(), NoMemory>
    ensures { OnOk result (text.new ≡ text.old ++ message_text msg.now) }
{
    text.put(kind_name(msg.kind).as_bytes())?;
    put_number(text, b" ", u64::from(msg.line.0))?;
    put_number(text, b" ", u64::from(msg.src.0))?;
    put_number(text, b" ", u64::from(msg.stamp))?;
    put_body(text, &msg.body)?;
    text.put(b"\n")?;
    Ok(())
}
