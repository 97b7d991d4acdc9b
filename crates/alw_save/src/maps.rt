ghost use Rattle.std.specs.Prelude.{◌≡◌, ◌<◌, ◌++◌, OnOk, IfSome};
ghost use Rattle.std.specs.List.{flat_map};
ghost use Rattle.std.specs.Option.{option_map};
ghost use Rattle.alw_ctx.specs.Residents.{number_of};
ghost use Rattle.alw_image.specs.Images.{node_count, line_count};
ghost use Rattle.alw_mesh.specs.Readings.{node_in};
ghost use Rattle.alw_save.specs.Lines.{pending_line, cache_line};
ghost use Rattle.alw_save.specs.States.{line_at};
ghost use Rattle.alw_msg.specs.Statuses.{waited};
ghost use Rattle.alw_save.specs.Waiting.{nearest, lowest_of, waited_at, transaction_of, copy_of};

use crate::pieces::put_body;
use alw_mesh::Machine;
use alw_msg::Status;
use alw_num::{Line, LineNo, Mode, NoMemory, NodeNo};
use alw_report::mode_name;
use alw_text::{Text, put_number};

/// The transactions of a node, by line: each slot that opened one waits on its line, so that no other lines
/// are looked at.
pub fn put_transactions(text: &mut Text, machine: &Machine, n: NodeNo) -> Result<(), NoMemory>
    requires { n.0 < node_count machine.now.image }
    ensures { OnOk result (text.new ≡ text.old ++ flat_map pending_line (node_in machine.now n.0).transactions.entries) }
{
    let _run = machine.journal(); // for its clause
    let mut from = 0;
    while let Some(line) = next_waited(machine, n, from) {
        put_transaction(
            text,
            line,
            machine.pending(n, line),
            machine.opener(n, line),
        )?;
        from = line.0 + 1;
    }
    Ok(())
}

// A transaction on a line, if there is one.
fn put_transaction(
    text: &mut Text,
    line: LineNo,
    mode: Option<Mode>,
    opener: Option<u8>,
) -> Result<(), NoMemory>
    ensures { OnOk result (text.new ≡ text.old ++ line_at pending_line line.0 (transaction_of mode opener)) }
{
    let (Some(mode), Some(slot)) = (mode, opener) else {
        return Ok(());
    };
    put_pending(text, line, mode, slot)
}

#[tactic(auto, unfolding(crate::specs::Lines::pending_line))]
fn put_pending(text: &mut Text, line: LineNo, mode: Mode, slot: u8) -> Result<(), NoMemory>
    ensures { OnOk result (text.new ≡ text.old ++ pending_line (line.0, record { mode = mode; opener = slot })) }
{
    put_number(text, b"pending ", u64::from(line.0))?;
    text.put(b" ")?;
    text.put(mode_name(mode).as_bytes())?;
    put_number(text, b" ", u64::from(slot))?;
    text.put(b"\n")?;
    Ok(())
}

// The lowest line from a number on that a slot of the node waits on.
fn next_waited(machine: &Machine, n: NodeNo, from: u32) -> Option<LineNo>
    requires { n.0 < node_count machine.now.image }
    ensures lowest { option_map number_of result ≡ lowest_of (waited_at machine.now n.0) from machine.now.image.contexts }
    ensures exists { IfSome result (λ line. line.0 < line_count machine.now.image) }
{
    let _run = machine.journal(); // for its clause
    let contexts = u32::from(machine.image().contexts());
    let first = u32::from(n.0) * contexts;
    let mut next = None;
    for slot in 0..contexts {
        next = nearest(next, machine.status(first + slot), from);
    }
    next
}

// The lower one of a line and the one that a status waits on, where that one is as high as asked for.
fn nearest(next: Option<LineNo>, status: Status, from: u32) -> Option<LineNo>
    ensures { option_map number_of result ≡ nearest from (option_map number_of next) (waited status) }
{
    let Status::Waiting { line } = status else {
        return next;
    };
    match next {
        Some(lowest) if lowest.0 <= line.0 => next,
        _ if from <= line.0 => Some(line),
        _ => next,
    }
}

/// The copies of a node, by set.
pub fn put_copies(text: &mut Text, machine: &Machine, n: NodeNo) -> Result<(), NoMemory>
    requires { n.0 < node_count machine.now.image }
    ensures { OnOk result (text.new ≡ text.old ++ flat_map cache_line (node_in machine.now n.0).cache.entries) }
{
    let _run = machine.journal(); // for its clause
    for set in 0..machine.params().sets() {
        put_set(text, set, machine.cached(n, set))?;
    }
    Ok(())
}

// The copy in a set, if there is one.
fn put_set(text: &mut Text, set: u32, copy: Option<(LineNo, Mode, Line)>) -> Result<(), NoMemory>
    ensures { OnOk result (text.new ≡ text.old ++ line_at cache_line set (option_map copy_of copy)) }
{
    match copy {
        Some((line, mode, body)) => put_copy(text, set, line, mode, &body),
        None => Ok(()),
    }
}

#[tactic(auto, unfolding(crate::specs::Lines::cache_line))]
fn put_copy(
    text: &mut Text,
    set: u32,
    line: LineNo,
    mode: Mode,
    body: &Line,
) -> Result<(), NoMemory>
    ensures { OnOk result (text.new ≡ text.old ++ cache_line (set, record { line = line.0; mode = mode; body = body.now })) }
{
    put_number(text, b"cache ", u64::from(set))?;
    put_number(text, b" ", u64::from(line.0))?;
    text.put(b" ")?;
    text.put(mode_name(mode).as_bytes())?;
    put_body(text, body)?;
    text.put(b"\n")?;
    Ok(())
}
