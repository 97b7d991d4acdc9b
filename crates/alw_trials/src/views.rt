use crate::plays::{Play, goes, started};
use alw_laws::{Copies, LineView, LinkMsgs, Pending, inspect, view};
use alw_memory::HomeView;
use alw_mesh::Machine;
use alw_msg::Kind::{ACKC, BUSY, INV, RDATA, REPM, RREQ, UPDATE, WDATA, WREQ};
use alw_msg::{Kind, Msg};
use alw_num::State::{RO, RT, RW, WT};
use alw_num::{Line, LineNo, MOST_NODES, Meta, Mode, NodeNo, NodeSet, Sequence, State};
use std::alloc::Global;
use std::test::Fail;

// The line that is shown, and its home.
const LINE: LineNo = LineNo(5);

const HOME: NodeNo = NodeNo(2);

// One thing that is shown of the line, of a node: a copy with its first word, a transaction, a message
// with its first word on the link to the home or from it, or the packet.
#[derive(Clone, Copy)]
enum Shown {
    ReadOnly(u16, u32),
    ReadWrite(u16, u32),
    Reading(u16),
    Writing(u16),
    Up(Kind, u16, u32),
    Down(Kind, u16, u32),
    Packet(Kind, u16),
    OfAnotherLine(Kind, u16),
}

use Shown::{Down, OfAnotherLine, Packet, ReadOnly, ReadWrite, Reading, Up, Writing};

// The line with this first word.
fn word(first: u32) -> Line {
    Line {
        a: first,
        b: 1,
        c: 2,
        d: 3,
    }
}

// The set of these nodes.
fn set_of(nodes: &[u16]) -> NodeSet {
    let mut set = NodeSet::empty();
    for node in nodes {
        set = set.with(NodeNo(*node % MOST_NODES));
    }
    set
}

// The entry of a line's home: its state and meta state, its pointers in hardware and in software, and its
// counter.
#[derive(Clone, Copy)]
struct Entry {
    state: State,
    meta: Meta,
    hardware: &'static [u16],
    software: &'static [u16],
    acks: u32,
}

const UNSHARED: Entry = Entry {
    state: RO,
    meta: Meta::Normal,
    hardware: &[],
    software: &[],
    acks: 0,
};

const SHARED: Entry = Entry {
    hardware: &[0],
    ..UNSHARED
};

const OWNED: Entry = Entry {
    state: RW,
    ..SHARED
};

const READING: Entry = Entry {
    state: RT,
    hardware: &[1],
    acks: 1,
    ..UNSHARED
};

const WRITING: Entry = Entry {
    state: WT,
    ..READING
};

const AWAITING_TWO: Entry = Entry { acks: 2, ..WRITING };

const IN_PROGRESS: Entry = Entry {
    meta: Meta::Progress,
    ..UNSHARED
};

// A home with this entry and first word 7.
fn home(entry: &Entry) -> HomeView {
    HomeView {
        state: entry.state,
        meta: entry.meta,
        hw: set_of(entry.hardware),
        sw: set_of(entry.software),
        acks: entry.acks,
        body: word(7),
    }
}

// A message of a node about a line, with this first word.
fn said(kind: Kind, line: LineNo, node: NodeNo, first: u32) -> Msg {
    Msg {
        kind,
        line,
        src: node,
        stamp: 4,
        body: word(first),
    }
}

// Appends a member to a list.
fn append<T: Drop>(list: &mut Sequence<T>, member: T) -> Result<(), Fail> {
    if list.len() == u32::MAX {
        return Err(Fail::from("too many members"));
    }
    list.push(member)?;
    Ok(())
}

// Shows one thing more.
fn show(view: &mut LineView, shown: Shown) -> Result<(), Fail> {
    match shown {
        ReadOnly(node, first) => {
            append(&mut view.copies, (NodeNo(node), Mode::Read, word(first)))
        }
        ReadWrite(node, first) => {
            append(&mut view.copies, (NodeNo(node), Mode::Write, word(first)))
        }
        Reading(node) => append(&mut view.transactions, (NodeNo(node), Mode::Read)),
        Writing(node) => append(&mut view.transactions, (NodeNo(node), Mode::Write)),
        Up(kind, node, first) => {
            let msg = said(kind, LINE, NodeNo(node), first);
            append(&mut view.links, (NodeNo(node), HOME, msg))
        }
        Down(kind, node, first) => {
            let msg = said(kind, LINE, HOME, first);
            append(&mut view.links, (HOME, NodeNo(node), msg))
        }
        Packet(kind, node) => {
            view.packet = Some(said(kind, LINE, NodeNo(node), 0));
            Ok(())
        }
        OfAnotherLine(kind, node) => {
            let msg = said(kind, LineNo(6), NodeNo(node), 0);
            append(&mut view.links, (NodeNo(node), HOME, msg))
        }
    }
}

// A line: the entry of its home, and what is shown of it.
type Row = (Entry, &'static [Shown]);

// Whether a line meets the line invariant.
fn is_sound(alloc: Global, row: &Row) -> Result<bool, Fail> {
    let (entry, things) = row;
    let mut view = LineView {
        line: LINE,
        at: HOME,
        home: home(entry),
        copies: Copies::empty(alloc),
        transactions: Pending::empty(alloc),
        links: LinkMsgs::empty(alloc),
        packet: None,
    };
    for shown in *things {
        show(&mut view, *shown)?;
    }
    Ok(inspect(&view))
}

// The place of the first of these lines that is sound though it is said not to be, or the other way round.
fn first_other(alloc: Global, rows: &[Row], sound: bool) -> Result<Option<usize>, Fail> {
    for (place, row) in rows.iter().enumerate() {
        if is_sound(alloc, row)? != sound {
            return Ok(Some(place));
        }
    }
    Ok(None)
}

const LINES_AT_REST: [Row; 5] = [
    (UNSHARED, &[]),
    (
        Entry {
            hardware: &[0, 2, 255],
            ..UNSHARED
        },
        &[ReadOnly(0, 7), ReadOnly(2, 7), ReadOnly(255, 7)],
    ),
    (OWNED, &[ReadWrite(0, 9)]),
    (
        Entry {
            meta: Meta::TrapWrite,
            software: &[3],
            ..UNSHARED
        },
        &[ReadOnly(3, 7)],
    ),
    (UNSHARED, &[OfAnotherLine(REPM, 0)]),
];

// Lines of which nothing is on its way are sound.
#[test]
fn lines_at_rest(rt: HostRuntime) -> Result<(), Fail> {
    assert_eq!(rt; first_other(rt.alloc(), &LINES_AT_REST, true)?, None);
    Ok(())
}

const TRANSACTIONS_ON_THEIR_WAY: [Row; 6] = [
    (UNSHARED, &[Reading(0), Up(RREQ, 0, 0)]),
    (IN_PROGRESS, &[Reading(4), Packet(RREQ, 4)]),
    (SHARED, &[Reading(0), Down(RDATA, 0, 7)]),
    (OWNED, &[ReadWrite(0, 9), Writing(3), Down(BUSY, 3, 0)]),
    (WRITING, &[ReadWrite(0, 9), Writing(1), Down(INV, 0, 0)]),
    (AWAITING_TWO, &[Writing(1), Down(INV, 0, 0), Up(ACKC, 3, 0)]),
];

// So are lines with a transaction that waits for one thing.
#[test]
fn transactions_on_their_way(rt: HostRuntime) -> Result<(), Fail> {
    assert_eq!(rt;
        first_other(rt.alloc(), &TRANSACTIONS_ON_THEIR_WAY, true)?,
        None
    );
    Ok(())
}

const CROSSING_MESSAGES: [Row; 5] = [
    (READING, &[Reading(1), Up(REPM, 0, 9), Down(INV, 0, 0)]),
    (READING, &[Reading(1), Up(REPM, 0, 9), Up(ACKC, 0, 0)]),
    (READING, &[Reading(1), Up(UPDATE, 0, 9)]),
    (
        READING,
        &[Reading(1), Writing(0), Down(WDATA, 0, 9), Down(INV, 0, 0)],
    ),
    (
        WRITING,
        &[Writing(1), Reading(0), Down(RDATA, 0, 7), Down(INV, 0, 0)],
    ),
];

// An INV crosses a line that comes home, and stands behind one that it recalls.
#[test]
fn crossing_messages(rt: HostRuntime) -> Result<(), Fail> {
    assert_eq!(rt; first_other(rt.alloc(), &CROSSING_MESSAGES, true)?, None);
    Ok(())
}

const BROKEN_TRANSACTIONS: [Row; 6] = [
    (UNSHARED, &[Up(RREQ, 0, 0)]),
    (UNSHARED, &[Reading(0)]),
    (UNSHARED, &[Reading(0), Up(RREQ, 0, 0), Up(RREQ, 0, 0)]),
    (UNSHARED, &[Writing(0), Up(RREQ, 0, 0)]),
    (UNSHARED, &[Reading(0), Up(RREQ, 0, 0), Down(BUSY, 0, 0)]),
    (READING, &[ReadWrite(0, 9), Down(INV, 0, 0)]),
];

// A transaction waits for exactly one thing of its mode, and nothing is on its way without one.
#[test]
fn broken_transactions(rt: HostRuntime) -> Result<(), Fail> {
    assert_eq!(rt; first_other(rt.alloc(), &BROKEN_TRANSACTIONS, false)?, None);
    Ok(())
}

const BROKEN_COUNTERS: [Row; 7] = [
    (
        Entry {
            acks: 1,
            ..UNSHARED
        },
        &[],
    ),
    (UNSHARED, &[Down(INV, 0, 0)]),
    (
        Entry {
            hardware: &[0, 1],
            ..OWNED
        },
        &[ReadWrite(0, 9)],
    ),
    (WRITING, &[Writing(1)]),
    (WRITING, &[Writing(1), Down(INV, 1, 0)]),
    (AWAITING_TWO, &[Writing(1), Down(INV, 0, 0), Up(ACKC, 0, 0)]),
    (
        Entry { acks: 2, ..READING },
        &[Reading(1), Down(INV, 0, 0), Up(ACKC, 3, 0)],
    ),
];

// The counter is that of the state, and the number of answers owed: one of a node at most.
#[test]
fn broken_counters(rt: HostRuntime) -> Result<(), Fail> {
    assert_eq!(rt; first_other(rt.alloc(), &BROKEN_COUNTERS, false)?, None);
    Ok(())
}

const BROKEN_CARRIERS: [Row; 7] = [
    (SHARED, &[ReadWrite(0, 9)]),
    (OWNED, &[]),
    (OWNED, &[ReadWrite(1, 9)]),
    (OWNED, &[ReadWrite(0, 9), ReadWrite(1, 9)]),
    (READING, &[Reading(1), ReadWrite(0, 9), Down(INV, 3, 0)]),
    (READING, &[Reading(1), ReadWrite(0, 9), Up(ACKC, 0, 0)]),
    (
        READING,
        &[Reading(1), ReadWrite(0, 9), Down(INV, 0, 0), Up(REPM, 3, 9)],
    ),
];

// The line is carried where the home's state says so, and a carrier in a transaction is recalled.
#[test]
fn broken_carriers(rt: HostRuntime) -> Result<(), Fail> {
    assert_eq!(rt; first_other(rt.alloc(), &BROKEN_CARRIERS, false)?, None);
    Ok(())
}

const BROKEN_COPIES: [Row; 6] = [
    (SHARED, &[ReadOnly(0, 8)]),
    (SHARED, &[Reading(0), Down(RDATA, 0, 8)]),
    (OWNED, &[ReadWrite(0, 9), ReadOnly(1, 9)]),
    (UNSHARED, &[ReadOnly(0, 7)]),
    (UNSHARED, &[Reading(0), Down(RDATA, 0, 7)]),
    (WRITING, &[Writing(1), ReadOnly(0, 7), Up(ACKC, 0, 0)]),
];

// Copies and RDATA hold the current value, and readers are sharers or are to lose their copy.
#[test]
fn broken_copies(rt: HostRuntime) -> Result<(), Fail> {
    assert_eq!(rt; first_other(rt.alloc(), &BROKEN_COPIES, false)?, None);
    Ok(())
}

const BROKEN_ORDERS_AND_PAIRS: [Row; 6] = [
    (
        WRITING,
        &[Writing(1), Reading(0), Down(INV, 0, 0), Down(RDATA, 0, 7)],
    ),
    (OWNED, &[Reading(0), Up(RREQ, 0, 0), Up(REPM, 0, 9)]),
    (OWNED, &[ReadWrite(0, 9), Writing(0), Up(WREQ, 0, 0)]),
    (SHARED, &[ReadOnly(0, 7), Reading(0), Up(RREQ, 0, 0)]),
    (SHARED, &[ReadOnly(0, 7), ReadOnly(0, 7)]),
    (UNSHARED, &[Reading(0), Reading(0), Up(RREQ, 0, 0)]),
];

// No message overtakes another one, and a node has one copy and one transaction that go together.
#[test]
fn broken_orders_and_pairs(rt: HostRuntime) -> Result<(), Fail> {
    assert_eq!(rt;
        first_other(rt.alloc(), &BROKEN_ORDERS_AND_PAIRS, false)?,
        None
    );
    Ok(())
}

const BROKEN_SOFTWARE_SETS: [Row; 5] = [
    (
        Entry {
            software: &[3],
            ..UNSHARED
        },
        &[],
    ),
    (
        Entry {
            meta: Meta::TrapWrite,
            ..UNSHARED
        },
        &[],
    ),
    (IN_PROGRESS, &[]),
    (
        Entry {
            state: RW,
            meta: Meta::TrapAlways,
            software: &[3],
            ..UNSHARED
        },
        &[ReadWrite(3, 9)],
    ),
    (UNSHARED, &[Reading(4), Packet(RREQ, 4)]),
];

// The software set and the packet are those of the meta state.
#[test]
fn broken_software_sets(rt: HostRuntime) -> Result<(), Fail> {
    assert_eq!(rt;
        first_other(rt.alloc(), &BROKEN_SOFTWARE_SETS, false)?,
        None
    );
    Ok(())
}

// One node asks for the one line of its machine, to store to it.
const ASKS: Play = Play {
    sizes: "1 1 1 4 4 100",
    code: "03100000 d0204000",
    starts: "0 0 0",
    rows: "1 I 0, 2 I 0",
};

// The machine once it has.
fn asked(alloc: Global) -> Result<Machine, Fail> {
    let mut machine = started(alloc, &ASKS)?;
    goes(&mut machine, ASKS.rows)?;
    Ok(machine)
}

// What a machine has of its first line.
fn first_line(alloc: Global, machine: &Machine) -> Result<LineView, Fail> {
    if machine.lines() == 0 {
        return Err("no line".into());
    }
    Ok(view(alloc, machine, LineNo(0))?)
}

// What a machine has of a line: the transaction of the node, and its request.
#[test]
fn line_of_a_machine(rt: HostRuntime) -> Result<(), Fail> {
    let shown = first_line(rt.alloc(), &asked(rt.alloc())?)?;
    assert!(rt; shown.copies.is_empty() && shown.packet.is_none());
    assert!(rt; shown.transactions.len() == 1 && shown.links.len() == 1);
    assert!(rt; inspect(&shown));
    Ok(())
}
