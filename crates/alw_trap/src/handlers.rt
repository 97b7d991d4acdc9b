ghost use Rattle.std.specs.Prelude.{◌≡◌, ◌<◌, None, IsTrue};
ghost use Rattle.alw_num.specs.NodeSets.{nodes_of, add_node, join_nodes};
ghost use Rattle.alw_msg.specs.Kinds.{to_memory};
ghost use Rattle.alw_num.specs.Maps.{value_at, with_value};
ghost use Rattle.alw_model.specs.LimitLess.{kept, or_always};
ghost use Rattle.dir_full.specs.Reactions.{HasRoom};
ghost use Rattle.dir_soft.specs.Tables.{set_of_line, used_lines};
ghost use Rattle.alw_home.specs.Entries.{directory_of};
ghost use Rattle.alw_trap.specs.Handling.{Handles, table_after};

use alw_home::react;
use alw_model::Keeping;
use alw_msg::{Msg, Sends};
use alw_num::{LineNo, MOST_NODES, Meta, NodeNo, NodeSet};
use dir_hw::HomeEntry;
use dir_soft::SoftDir;

/// The handler of a trapped packet (ASPLOS 1991, section 4). It acts by the home table with the
/// hardware pointers joined with the line's set in the table, and keeps P in hardware or in the
/// table. `always` says that the image lists the line. What it sends is appended to `sent`.
pub fn handle(
    entry: &mut HomeEntry,
    soft: &mut SoftDir,
    always: bool,
    packet: &Msg,
    sent: &mut Sends,
)
    requires progress { entry.old.meta ≡ Meta.Progress }
    requires to_memory { IsTrue (to_memory packet.now.kind) }
    requires free { value_at soft.old.sets packet.now.line.0 ≡ None → used_lines soft.old < soft.old.lines }
    requires room { HasRoom (join_nodes entry.old.pointers (set_of_line soft.old packet.now.line.0)) packet.now.src.0 sent.old }
    ensures { Handles (directory_of entry.old (set_of_line soft.old packet.now.line.0) always) (directory_of entry.new (set_of_line soft.new packet.now.line.0) always)
        soft.old soft.new sent.old sent.new packet.now }
{
    let _fits = sent.free(); // for its clause
    let pointers = entry.pointers().union(soft.set(packet.line));
    let keeping = react(entry, pointers, packet, sent);
    let meta = keep(entry, soft, packet.line, packet.src, keeping);
    entry.meta = unless_listed(always, meta);
}

// The meta state of a line, which stays Trap-Always where the image lists it.
fn unless_listed(always: bool, meta: Meta) -> Meta
    ensures { result ≡ or_always always meta }
{
    if always { Meta::TrapAlways } else { meta }
}

// Keeps P in hardware or in the table. Answers the meta state that the line then has.
fn keep(
    entry: &mut HomeEntry,
    soft: &mut SoftDir,
    line: LineNo,
    sender: NodeNo,
    keeping: Keeping,
) -> Meta
    requires node { sender.0 < MOST_NODES }
    requires free { value_at soft.old.sets line.0 ≡ None → used_lines soft.old < soft.old.lines }
    ensures entry { entry.new ≡ record entry.old { pointers = (kept entry.old.pointers (set_of_line soft.old line.0) sender.0 keeping).0 } }
    ensures table { soft.new ≡ table_after soft.old line.0 (kept entry.old.pointers (set_of_line soft.old line.0) sender.0 keeping).1 keeping }
    ensures meta { result ≡ (kept entry.old.pointers (set_of_line soft.old line.0) sender.0 keeping).2 }
{
    match keeping {
        Keeping::Joined => {
            spill(soft, line, entry.pointers(), sender);
            entry.clear();
            Meta::TrapWrite
        }
        Keeping::Alone => {
            soft.take(line);
            entry.only(sender);
            Meta::Normal
        }
        Keeping::Emptied => {
            soft.take(line);
            entry.clear();
            Meta::Normal
        }
        Keeping::Kept => {
            if soft.size(line) == 0 {
                Meta::Normal
            } else {
                Meta::TrapWrite
            }
        }
    }
}

// The sender and the hardware pointers join the line's set in the table.
fn spill(soft: &mut SoftDir, line: LineNo, hardware: NodeSet, sender: NodeNo)
    requires node { sender.0 < MOST_NODES }
    requires free { value_at soft.old.sets line.0 ≡ None → used_lines soft.old < soft.old.lines }
    ensures { soft.new ≡ record soft.old { sets = with_value soft.old.sets line.0 (add_node (join_nodes (nodes_of hardware) (set_of_line soft.old line.0)) sender.0) } }
{
    soft.add(line, sender);
    let mut rest = hardware;
    while let Some(node) = rest.lowest() {
        soft.add(line, node);
        rest = rest.without(node);
    }
}
