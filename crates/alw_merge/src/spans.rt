ghost use Rattle.std.specs.Prelude.{◌≡◌, ◌≤◌, ◌<◌, ◌++◌, ◌∷◌, [], length, ℕ, IfOk, OnOk};
ghost use Rattle.alw_num.specs.declared.node_sets.TheConstants.{MOST_NODES};
ghost use Rattle.alw_msg.specs.Events.{node_of};
ghost use Rattle.alw_msg.specs.Lists.{behind};
ghost use Rattle.alw_model.specs.Threads.{merged, log_at};
ghost use Rattle.alw_cells.specs.Logs.{logged};
ghost use Rattle.alw_merge.specs.Joins.{courses_of, next_did, dids_at, LogsAreOfJournal};
ghost use Rattle.alw_merge.specs.Spans.{dids_behind, taking_of, sending_of, MayFollow, Follows, EventIsTold, IsAtMost, IsSpan};

use crate::streams::{Read, Stream};
use alw_cells::{DidLists, Logs};
use alw_image::{Image, Params};
use alw_model::Did;
use alw_msg::{Event, Journal, Msg};
use alw_num::{MOST_NODES, NoMemory, NodeNo};
use alw_tally::{Moment, Tally};
use std::alloc::Global;
use std::marker::Model;

// What the events of a node did, from the next one on.
#[derive(Drop)]
struct Rest<'a> {
    dids: &'a [Did],
}

impl<'a> Model for Rest<'a> {
    ghost use Rattle.std.specs.Prelude.{List};
    ghost use Rattle.alw_model.specs.declared.steps.Did.{Did};

    ghost Value = { List Did };

    ghost view = { λ r. r.dids.now };
}

impl<'a> Rest<'a> {
    // What the next event did, which then isn't left any longer.
    #[inline(always)]
    fn next(&mut self) -> Did
        requires { 1 ≤ length self.old }
        ensures did { result ≡ next_did self.old }
        ensures rest { self.new ≡ behind self.old }
    {
        let Some((did, rest)) = self.dids.split_first() else {
            unreachable!();
        };
        self.dids = rest;
        *did
    }
}

/// A message that goes onto the link from a node to another, or where there is none, the head of that link,
/// which is taken off.
#[derive(Clone, Copy, PartialEq, Eq)]
pub struct Move {
    pub from: NodeNo,
    pub to: NodeNo,
    pub sent: Option<Msg>,
}

/// What logs say of a span of stamps: the entries, what their events move on links, and turns, prints and
/// counts, where no turn counts as having ended a hold.
#[derive(Drop)]
pub struct Span {
    pub journal: Journal,
    pub moves: Vec<Move>,
    pub tally: Tally,
}

/// Goes through the merge of logs from a stamp on, up to another or to the end, and reads off them what
/// each event took, sent and did. More entries than a journal can have are refused as too much memory is.
pub fn walk_span(
    alloc: Global,
    image: &Image,
    params: &Params,
    logs: &Logs,
    dids: &DidLists,
    low: u64,
    high: Option<u64>,
) -> Result<Span, NoMemory>
    requires counted { length dids.now ≡ length logs.now }
    requires read { LogsAreOfJournal image.now params.now (merged (logged logs.now)) (courses_of (logged logs.now) dids.now) }
    requires bounds { IsAtMost low high }
    ensures { IfOk result (λ span. IsSpan image.now params.now (merged (logged logs.now)) low high span) }
{
    let _allowed = image.parts(); // for its clause
    let mut events = Stream::from(alloc, logs, low)?;
    let mut rests = rests_of(alloc, dids, &events)?;
    let mut sends = Vec::new(alloc);
    let mut span = Span {
        journal: Journal::empty(alloc),
        moves: Vec::new(alloc),
        tally: Tally::start(alloc),
    };
    while !events.is_past(high) {
        if let Some(read) = events.plain() {
            tell(image, &read, &[], &mut rests, &mut span)?;
            continue;
        }
        let Some(read) = events.event(&mut sends)? else {
            unreachable!();
        };
        follow(image, &read, &sends, &mut rests, &mut span)?;
    }
    Ok(span)
}

// What the events did that are left of each log.
fn rests_of<'a>(
    alloc: Global,
    dids: &'a DidLists,
    events: &Stream<'_>,
) -> Result<Vec<Rest<'a>>, NoMemory>
    requires as_many { length dids.now ≡ length events.now }
    requires fit { (n : ℕ) → n < length dids.now → length (log_at events.now n) ≤ length (dids_at dids.now n) }
    ensures { IfOk result (λ rests. rests.items ≡ dids_behind events.now dids.now) }
{
    let mut rests = Vec::new(alloc);
    for n in 0..dids.len() {
        let all = dids.at_ref(n).members();
        rests.push(Rest {
            dids: &all[all.len() - events.left(n)..],
        })?;
    }
    Ok(rests)
}

// One event more, as its node's log says it, and what is left of what the node's events did.
#[inline(never)]
fn follow(
    image: &Image,
    read: &Read,
    sends: &[(u16, Msg)],
    rests: &mut Vec<Rest<'_>>,
    span: &mut Span,
) -> Result<(), NoMemory>
    requires here { node_of read.now.entry.event < length rests.old.items }
    requires follows { MayFollow sends.now (dids_at rests.old.items (node_of read.now.entry.event)) }
    ensures journal { OnOk result (span.new.journal ≡ span.old.journal ++ read.now.entry ∷ []) }
    ensures follows { OnOk result (Follows image.now read.now sends.now rests.old.items rests.new.items span.old.moves.items span.new.moves.items span.old.tally.told span.new.tally.told) }
{
    tell(image, read, sends, rests, span)?;
    put_taken(&mut span.moves, read.entry.event)?;
    put_sent(&mut span.moves, read.entry.event.node(), sends)
}

// The same, but for what it moves.
#[inline(always)]
fn tell(
    image: &Image,
    read: &Read,
    sends: &[(u16, Msg)],
    rests: &mut Vec<Rest<'_>>,
    span: &mut Span,
) -> Result<(), NoMemory>
    requires here { node_of read.now.entry.event < length rests.old.items }
    requires follows { MayFollow sends.now (dids_at rests.old.items (node_of read.now.entry.event)) }
    ensures journal { OnOk result (span.new.journal ≡ span.old.journal ++ read.now.entry ∷ []) }
    ensures told { OnOk result (EventIsTold image.now read.now sends.now rests.old.items rests.new.items span.old.moves.items span.new.moves.items span.old.tally.told span.new.tally.told) }
{
    if span.journal.len() == u32::MAX {
        return Err(NoMemory);
    }
    span.journal.push(read.entry)?;
    let node = read.entry.event.node();
    let moment = Moment {
        entry: read.entry,
        taken: read.taken,
        did: rests[usize::from(node.0)].next(),
        quiet: false,
    };
    span.tally.reserve()?;
    span.tally.add_logged(image, &moment, sends);
    Ok(())
}

// A delivery takes the head off its link.
#[inline(always)]
fn put_taken(moves: &mut Vec<Move>, event: Event) -> Result<(), NoMemory>
    ensures { OnOk result (moves.new.items ≡ moves.old.items ++ taking_of event) }
{
    if let Event::Deliver { from, to } = event {
        moves.push(Move {
            from,
            to,
            sent: None,
        })?;
    }
    Ok(())
}

// Each message that a node sent goes onto its link.
fn put_sent(moves: &mut Vec<Move>, from: NodeNo, sends: &[(u16, Msg)]) -> Result<(), NoMemory>
    ensures { OnOk result (moves.new.items ≡ moves.old.items ++ sending_of from.0 sends.now) }
{
    for i in 0..sends.len() {
        let (to, msg) = sends[i];
        moves.push(Move {
            from,
            to: NodeNo(to),
            sent: Some(msg),
        })?;
    }
    Ok(())
}
