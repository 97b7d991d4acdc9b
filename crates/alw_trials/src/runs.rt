use crate::plays::{Play, event_of, started};
use alw_mesh::{Machine, MachineParts, StepErr};
use alw_model::{Counts, Ended};
use alw_msg::{Entry, Event, Msg, Status};
use alw_node::HomeView;
use alw_num::{Draws, Line, LineNo, Mode, NoMemory, NodeNo, SHARED_BASE};
use alw_sched::finish;
use alw_text::Text;
use alw_trace::{Trace, write_trace};
use sparc_table::Regs;
use std::alloc::Global;
use std::test::Fail;

// Node 1 loads from a line, and node 0 stores to it; the last event isn't enabled.
const TWO_AT_WORK: Play = Play {
    sizes: "2 1 1 4 4 100",
    code: "03100000 d0004000 91d02000 03100000 d2204000 91d02000",
    starts: "0 0 12, 1 0 0",
    rows: "1 I 1, 2 I 1, 3 D 1 0, 4 D 0 1, 5 I 1, 1 I 0, 2 I 0, 4 D 0 0, 5 H 0",
};

// What is seen of a node of a machine of two nodes with one context and one line each.
#[derive(Clone, Copy, PartialEq)]
struct NodeSeen {
    status: Status,
    regs: Regs,
    held: Option<LineNo>,
    clock: u32,
    last: u8,
    pending: Option<Mode>,
    opener: Option<u8>,
    cached: Option<(LineNo, Mode, Line)>,
    packet: Option<Msg>,
    from_first: Option<Msg>,
    to_first: Option<Msg>,
    home: HomeView,
    word: u32,
}

// What is seen of such a machine.
#[derive(Clone, Copy, PartialEq)]
struct MachineSeen {
    journal: u32,
    last_entry: Option<Entry>,
    turns: usize,
    prints: usize,
    counts: Counts,
    settled: bool,
    sent: u32,
    holds: u32,
    events: u32,
    first_event: Option<Event>,
    ended: Option<Ended>,
    nodes: [NodeSeen; 2],
}

// What is seen of a node.
fn node_seen(machine: &Machine, n: u16) -> Option<NodeSeen> {
    let image = machine.image();
    let count = u32::from(image.width()) * u32::from(image.height());
    let sized = image.contexts() == 1 && image.per_node() == 1 && machine.params().sets() == 4;
    if !sized || count != 2 || n >= 2 {
        return None;
    }
    let (node, line) = (NodeNo(n), LineNo(0));
    Some(NodeSeen {
        status: machine.status(u32::from(n)),
        regs: machine.regs(u32::from(n)),
        held: machine.held(u32::from(n)),
        clock: machine.clock(node),
        last: machine.last(node),
        pending: machine.pending(node, line),
        opener: machine.opener(node, line),
        cached: machine.cached(node, 0),
        packet: machine.packet(node, 0),
        from_first: machine.on_link(NodeNo(0), node, 0),
        to_first: machine.on_link(node, NodeNo(0), 0),
        home: machine.home(LineNo(u32::from(n))),
        word: machine.word(SHARED_BASE + 16 * u32::from(n)),
    })
}

// What is seen of the machine.
fn seen(machine: &Machine) -> Option<MachineSeen> {
    let journal = machine.journal();
    let last_entry = if journal.is_empty() {
        None
    } else {
        Some(journal.at(journal.len() - 1))
    };
    let first_event = if machine.events() > 0 {
        Some(machine.event(0))
    } else {
        None
    };
    Some(MachineSeen {
        journal: journal.len(),
        last_entry,
        turns: machine.turns().len(),
        prints: machine.prints().len(),
        counts: machine.counts(),
        settled: machine.settled(),
        sent: machine.last_sent().len(),
        holds: machine.holds(),
        events: machine.events(),
        first_event,
        ended: machine.ended(),
        nodes: [node_seen(machine, 0)?, node_seen(machine, 1)?],
    })
}

// An event happens where it may; or it doesn't, and all is as it was. Want of memory is told only where that is so.
fn is_whole(machine: &mut Machine, event: Event) -> Result<bool, Fail> {
    let before = seen(machine);
    let may = machine.may(event);
    match machine.step(event) {
        Ok(_) => Ok(may),
        Err(StepErr::NotEnabled) => Ok(!may && seen(machine) == before),
        Err(StepErr::NoMemory) => {
            if may && seen(machine) == before {
                Err("no memory".into())
            } else {
                Ok(false)
            }
        }
    }
}

// Each event of the rows of a run happens where it may, or leaves all as it was.
fn are_whole(machine: &mut Machine, rows: &str) -> Result<bool, Fail> {
    for row in rows.split(", ") {
        let event = event_of(row).ok_or("no event")?;
        if !is_whole(machine, event)? {
            return Ok(false);
        }
    }
    Ok(true)
}

// That of a run, and how many of its events happened.
fn whole_run(alloc: Global, play: &Play) -> Result<(bool, u32), Fail> {
    let mut machine = started(alloc, play)?;
    let whole = are_whole(&mut machine, play.rows);
    let count = machine.journal().len();
    drop(machine);
    Ok((whole?, count))
}

// An event that doesn't happen leaves all as it was, since it isn't enabled or for want of memory (`rt try --test --fail-alloc N`).
#[test]
fn refused_step(rt: HostRuntime) -> Result<(), Fail> {
    assert_eq!(rt; whole_run(rt.alloc(), &TWO_AT_WORK)?, (true, 8));
    Ok(())
}

// Three nodes load from the four lines of one home, which have one hardware pointer each.
const FOUR_LINES: Play = Play {
    sizes: "3 1 4 1 256 32768",
    code: "03100000 d0004000 d0006010 d0006020 d0006030 91d02000",
    starts: "0 0 0, 1 0 0, 2 0 0",
    rows: "",
};

// What seed 7 makes of it, as an independent program writes it.
const SEED_7: &[u8] = b"ALEWIFE TRACE 1
image 76
414c455700010301010000040000000600000000000000030000000003100000
d0004000d0006010d0006020d000603091d02000000000000000000000010000
000000000002000000000000
params pointers 1 sets 256 limit 32768
entries 58
1 I 2
2 I 2
1 I 0
1 I 1
3 D 2 0
4 D 0 2
2 I 1
4 I 0
5 D 1 0
6 H 0
7 D 0 1
7 D 0 0
5 I 2
6 I 2
8 D 0 0
9 D 2 0
10 I 0
11 I 0
12 D 0 0
10 D 0 2
8 I 1
9 I 1
13 H 0
14 D 0 0
11 I 2
15 I 0
12 I 2
16 D 2 0
17 I 0
18 D 1 0
19 D 0 1
20 I 1
17 D 0 2
21 I 1
18 I 2
19 I 2
19 D 0 0
20 D 2 0
21 H 0
22 D 0 0
23 D 1 0
21 D 0 2
24 D 0 1
22 I 2
23 I 2
24 I 0
25 I 0
26 D 0 0
27 H 0
28 D 0 0
29 I 0
30 I 0
25 I 1
26 I 1
31 D 1 0
32 D 0 1
33 I 1
34 I 1
end
";

// The state of the draws after so many of a seed.
fn state_after(seed: u64, count: u32) -> u64 {
    let mut draws = Draws { state: seed };
    for _ in 0..count {
        draws.draw();
    }
    draws.state
}

// Takes a machine to an end by a seed. Where memory is refused on the way it goes on with the draws that are
// left: each event took one.
fn finish_on(machine: &mut Machine, seed: u64) -> Result<Ended, NoMemory> {
    match finish(machine, seed) {
        Ok(ended) => Ok(ended),
        Err(NoMemory) => finish(machine, state_after(seed, machine.journal().len())),
    }
}

// The trace of what a machine did.
fn trace_of(alloc: Global, machine: Machine) -> Result<Text, NoMemory> {
    let MachineParts {
        image,
        params,
        journal,
        ..
    } = machine.into_parts();
    let trace = Trace {
        image,
        params,
        journal,
    };
    write_trace(alloc, &trace)
}

// A run that was refused memory comes to the journal and the end of the undisturbed one.
#[test]
fn a_refused_run_goes_on(rt: HostRuntime) -> Result<(), Fail> {
    let mut machine = started(rt.alloc(), &FOUR_LINES)?;
    assert!(rt; finish_on(&mut machine, 7)? == Ended::Halted);
    let text = trace_of(rt.alloc(), machine)?;
    assert!(rt; text.bytes() == SEED_7);
    Ok(())
}
