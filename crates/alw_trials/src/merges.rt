ghost use Rattle.std.specs.Prelude.{◌≡◌, ◌+◌, OnOk};
ghost use Rattle.alw_cells.specs.Records.{StampsAreBelow};

use crate::images::{LINK_TO_ITSELF, ONE_NODE, image_of};
use crate::plays::entry_of;
use alw_cells::{Log, Logs, links_agree};
use alw_image::{Params, Starts};
use alw_merge::{merge, replay_logs, stream};
use alw_msg::{Entry, Event, Journal, Kind, Msg, Sends};
use alw_num::{Line, LineNo, NodeNo};
use std::alloc::Global;
use std::test::Fail;

const ONE: NodeNo = NodeNo(0);

const OTHER: NodeNo = NodeNo(1);

// Entries of these rows, as a list.
fn entries_of(alloc: Global, rows: &str) -> Result<Journal, Fail> {
    let mut entries = Journal::empty(alloc);
    for row in rows.split(", ") {
        if entries.len() < 100 {
            entries.push(entry_of(row).ok_or("no entry")?)?;
        }
    }
    Ok(entries)
}

// A message without a line, sent at stamp 2.
const CALL_BACK: Msg = Msg {
    kind: Kind::INV,
    line: LineNo(0),
    src: ONE,
    stamp: 2,
    body: Line::ZERO,
};

// An event more of a node that sends nothing, behind those up to a stamp. A delivery takes such a message.
fn put(alloc: Global, log: &mut Log, node: NodeNo, last: u32, entry: Entry) -> Result<(), Fail>
    requires number { log.old.number ≡ node.0 }
    requires last { StampsAreBelow (last + 1) log.old.entries }
    ensures number { OnOk result (log.new.number ≡ node.0) }
    ensures last { OnOk result (StampsAreBelow (entry.stamp + 1) log.new.entries) }
{
    if entry.stamp <= last {
        return Err("stamps don't rise".into());
    }
    let taken = match entry.event {
        Event::Instr { node: own } if own == node => None,
        Event::Deliver { from, to } if to == node => Some(Msg {
            src: from,
            ..CALL_BACK
        }),
        _ => return Err("another event".into()),
    };
    let mut nothing = Sends::room(alloc, 0)?;
    nothing.begin(node, entry.stamp);
    log.reserve(0)?;
    log.push(entry, taken, &nothing);
    Ok(())
}

// The log of a node with these entries.
fn log_of(alloc: Global, node: NodeNo, entries: &[Entry]) -> Result<Log, Fail> {
    let mut log = Log::empty(alloc, node);
    let mut last = 0;
    for entry in entries {
        put(alloc, &mut log, node, last, *entry)?;
        last = entry.stamp;
    }
    Ok(log)
}

// The log of a node with the entries of these rows.
fn log_of_rows(alloc: Global, node: NodeNo, rows: &str) -> Result<Log, Fail> {
    log_of(alloc, node, entries_of(alloc, rows)?.members())
}

const FIRST: &str =
    "1 I 0, 2 I 0, 3 D 0 0, 4 D 0 0, 5 I 0, 6 D 1 0, 7 D 0 0, 8 D 0 0, 9 I 0, 10 D 0 0, \
    13 D 1 0, 14 D 0 0, 15 I 0, 16 I 0, 17 I 0";

const SECOND: &str = "1 I 1, 2 I 1, 9 D 0 1, 10 I 1, 11 I 1, 12 D 0 1";

const MERGED: &str =
    "1 I 0, 1 I 1, 2 I 0, 2 I 1, 3 D 0 0, 4 D 0 0, 5 I 0, 6 D 1 0, 7 D 0 0, 8 D 0 0, \
    9 I 0, 9 D 0 1, 10 D 0 0, 10 I 1, 11 I 1, 12 D 0 1, 13 D 1 0, 14 D 0 0, 15 I 0, 16 I 0, 17 I 0";

// The logs of both nodes.
fn two_writers(alloc: Global) -> Result<Logs, Fail> {
    let mut logs = Logs::empty(alloc);
    logs.push(log_of_rows(alloc, ONE, FIRST)?)?;
    logs.push(log_of_rows(alloc, OTHER, SECOND)?)?;
    Ok(logs)
}

// The bytes of the first log begin with these.
fn begins_with(logs: &Logs, bytes: &[u8]) -> bool {
    !logs.is_empty() && logs.at_ref(0).bytes().starts_with(bytes)
}

// The merge of logs has these entries.
fn merges(alloc: Global, logs: &Logs, entries: &[Entry]) -> Result<bool, Fail> {
    Ok(merge(alloc, logs)?.members() == entries)
}

// The merge of logs, entry by entry, has these and then ends.
fn streams(alloc: Global, logs: &Logs, entries: &[Entry]) -> Result<bool, Fail> {
    let mut merged = stream(alloc, logs)?;
    for entry in entries {
        if merged.next() != Some(*entry) {
            return Ok(false);
        }
    }
    Ok(merged.next().is_none())
}

// Two nodes store at one address, and one of them loads and prints it.
#[test]
fn entries_of_two_writers_merge(rt: HostRuntime) -> Result<(), Fail> {
    let alloc = rt.alloc();
    let logs = two_writers(alloc)?;
    assert!(rt; begins_with(&logs, &[0, 0, 0, 1, 0, 0, 0, 0, 0, 0, 0]));
    let merged = entries_of(alloc, MERGED)?;
    assert!(rt; merges(alloc, &logs, merged.members())?);
    assert!(rt; streams(alloc, &logs, merged.members())?);
    Ok(())
}

// A node's log, in which it sends another a message.
fn sender(alloc: Global) -> Result<Log, Fail> {
    let mut sends = Sends::room(alloc, 2)?;
    sends.begin(ONE, 2);
    sends.push(OTHER, Kind::INV, LineNo(0), Line::ZERO);
    let mut log = Log::empty(alloc, ONE);
    log.reserve(2)?;
    let event = Event::Handle { node: ONE };
    log.push(Entry { stamp: 2, event }, None, &sends);
    Ok(log)
}

// The other's log, in which it takes the message with this stamp.
fn receiver(alloc: Global, stamp: u32) -> Result<Log, Fail> {
    let mut sends = Sends::room(alloc, 2)?;
    sends.begin(OTHER, 5);
    let mut log = Log::empty(alloc, OTHER);
    log.reserve(2)?;
    let event = Event::Deliver {
        from: ONE,
        to: OTHER,
    };
    let taken = Msg { stamp, ..CALL_BACK };
    log.push(Entry { stamp: 5, event }, Some(taken), &sends);
    Ok(log)
}

// Both logs.
fn one_message(alloc: Global, stamp: u32) -> Result<Logs, Fail> {
    let mut logs = Logs::empty(alloc);
    logs.push(sender(alloc)?)?;
    logs.push(receiver(alloc, stamp)?)?;
    Ok(logs)
}

// Both logs agree on the message of stamp 2 alone.
#[test]
fn a_message_with_another_stamp_was_not_sent(rt: HostRuntime) -> Result<(), Fail> {
    let alloc = rt.alloc();
    assert!(rt; links_agree(&one_message(alloc, 2)?));
    assert!(rt; !links_agree(&one_message(alloc, 3)?));
    Ok(())
}

// A message stands in the bytes of the log that sends it, and in those of the log that takes it.
#[test]
fn messages_are_packed(rt: HostRuntime) -> Result<(), Fail> {
    let alloc = rt.alloc();
    let sent = [0, 0, 0, 2, 2, 0, 0, 0, 0, 0, 1, 0, 1, 7, 0, 0, 0, 0];
    assert!(rt; sender(alloc)?.bytes() == sent.as_slice());
    let taken = [
        0, 0, 0, 5, 1, 0, 0, 0, 0, 7, 0, 0, 0, 0, 0, 0, 0, 0, 0, 2, 0, 0,
    ];
    assert!(rt; receiver(alloc, 2)?.bytes() == taken.as_slice());
    Ok(())
}

// How many entries of a log the machine of one node takes.
fn count_taken(alloc: Global, rows: &str) -> Result<u32, Fail> {
    let starts = Starts::from_slice(alloc, &[(ONE, 0, 0)])?;
    let image = image_of(alloc, ONE_NODE, &LINK_TO_ITSELF, starts, &[])?;
    let params = Params::new(4, 64, 100, 0).ok_or("no parameters")?;
    let mut logs = Logs::empty(alloc);
    logs.push(log_of_rows(alloc, ONE, rows)?)?;
    Ok(replay_logs(alloc, &image, &params, &logs)?.kept)
}

// Up to the first with another stamp.
#[test]
fn logs_are_replayed(rt: HostRuntime) -> Result<(), Fail> {
    assert_eq!(rt; count_taken(rt.alloc(), "1 I 0, 2 I 0, 3 I 0, 5 I 0")?, 3);
    Ok(())
}
