ghost use Rattle.std.specs.Prelude.{◌≡◌, ◌≤◌, ◌<◌, ◌*◌, ◌+◌, ◌++◌, length, IfOk, OnOk};
ghost use Rattle.alw_num.specs.declared.node_sets.TheConstants.{MOST_NODES};
ghost use Rattle.alw_model.specs.Threads.{merged};
ghost use Rattle.alw_cells.specs.Logs.{logged};
ghost use Rattle.alw_tally.specs.Told.{sum_of};
ghost use Rattle.alw_merge.specs.Joins.{courses_of, LogsAreOfJournal, JournalIsWalked};
ghost use Rattle.alw_merge.specs.Spans as spans;
ghost use Rattle.alw_merge.specs.Spans.{IsSpan, AreSpans, MovesAreWithin, WalkIsBegun, IsWalkedOn, links_moved, told_in};

use crate::spans::{Move, Span, walk_span};
use alw_cells::{DidLists, Logs};
use alw_image::{Image, Params};
use alw_links::Links;
use alw_model::Counts;
use alw_msg::{Journal, Prints, Turns};
use alw_num::{MOST_NODES, NoMemory, Sequence};
use std::alloc::Global;
use std::thread;
use std::thread::Threads;

// A run is walked in so many spans at most, and in one more for each so many events.
const MOST_SPANS: u32 = 8;

const SPAN_EVENTS: u32 = 16384;

/// The journal that logs merge to, and what its events leave and tell, as the logs say it: what is on the
/// links, and turns, prints and counts, where no turn counts as having ended a hold.
#[derive(Drop)]
pub struct Walked {
    pub journal: Journal,
    pub links: Links,
    pub turns: Turns,
    pub prints: Prints,
    pub counts: Counts,
}

/// Goes through the merge of logs, and reads off them what each event took, sent and did. More entries than
/// a journal can have are refused as too much memory is.
pub fn walk(
    alloc: Global,
    image: &Image,
    params: &Params,
    logs: &Logs,
    dids: &DidLists,
) -> Result<Walked, NoMemory>
    requires counted { length dids.now ≡ length logs.now }
    requires read { LogsAreOfJournal image.now params.now (merged (logged logs.now)) (courses_of (logged logs.now) dids.now) }
    ensures journal { IfOk result (λ walked. walked.journal ≡ merged (logged logs.now)) }
    ensures walked { IfOk result (λ walked. JournalIsWalked image.now params.now (merged (logged logs.now)) walked.links (told_in walked)) }
{
    let _allowed = image.parts(); // for its clause
    let span = walk_span(alloc, image, params, logs, dids, 0, None)?;
    append(nothing(alloc, logs.len())?, span)
}

/// The same by so many threads at most, each of which walks a span of stamps up to the last, which is a
/// guess that no clause needs.
pub fn walk_by<R: Threads + Sync>(
    rt: &R,
    alloc: Global,
    image: &Image,
    params: &Params,
    logs: &Logs,
    dids: &DidLists,
    threads: u32,
    last: u32,
) -> Result<Walked, NoMemory>
    requires counted { length dids.now ≡ length logs.now }
    requires read { LogsAreOfJournal image.now params.now (merged (logged logs.now)) (courses_of (logged logs.now) dids.now) }
    ensures journal { IfOk result (λ walked. walked.journal ≡ merged (logged logs.now)) }
    ensures walked { IfOk result (λ walked. JournalIsWalked image.now params.now (merged (logged logs.now)) walked.links (told_in walked)) }
{
    let _allowed = image.parts(); // for its clause
    let count = threads
        .min(MOST_SPANS)
        .min(events_in(logs) / SPAN_EVENTS + 1)
        .max(1);
    let width = (last / count).saturating_add(1);
    let spans = walk_spans(rt, alloc, image, params, logs, dids, count, width)?;
    let mut walked = nothing(alloc, logs.len())?;
    for span in spans {
        walked = append(walked, span?)?;
    }
    Ok(walked)
}

// The spans of a merge, so many of one width, each walked by a thread.
fn walk_spans<R: Threads + Sync>(
    rt: &R,
    alloc: Global,
    image: &Image,
    params: &Params,
    logs: &Logs,
    dids: &DidLists,
    count: u32,
    width: u32,
) -> Result<Vec<Result<Span, NoMemory>>, NoMemory>
    requires counted { length dids.now ≡ length logs.now }
    requires read { LogsAreOfJournal image.now params.now (merged (logged logs.now)) (courses_of (logged logs.now) dids.now) }
    ensures { IfOk result (λ spans. AreSpans image.now params.now (merged (logged logs.now)) count width spans.items) }
{
    let spans = thread::map_indices(
        rt,
        alloc,
        count as usize,
        &move |k: usize| -> Result<Span, NoMemory>
            requires { (k < count) × (length dids.now ≡ length logs.now)
                × LogsAreOfJournal image.now params.now (merged (logged logs.now)) (courses_of (logged logs.now) dids.now) }
            ensures { IfOk result (λ span. IsSpan image.entry.now params.entry.now (merged (logged logs.entry.now)) (k * width) (spans.bound count width (k + 1)) span) }
        {
            let low = k as u64 * u64::from(width);
            walk_span(
                alloc,
                image,
                params,
                logs,
                dids,
                low,
                bound(count, width, k as u32 + 1),
            )
        },
    )?;
    Ok(spans)
}

// The number of events of all logs.
fn events_in(logs: &Logs) -> u32 {
    let mut events = 0u32;
    for n in 0..logs.len() {
        events = events.saturating_add(logs.at_ref(n).len());
    }
    events
}

// Where the k-th of so many spans of a width begins. The last goes on to the end.
fn bound(count: u32, width: u32, k: u32) -> Option<u64>
    ensures { result ≡ spans.bound count width k }
{
    if k < count {
        Some(u64::from(k) * u64::from(width))
    } else {
        None
    }
}

// No entry has been walked yet.
fn nothing(alloc: Global, nodes: u32) -> Result<Walked, NoMemory>
    requires { nodes ≤ MOST_NODES }
    ensures { IfOk result (λ walked. WalkIsBegun nodes walked) }
{
    Ok(Walked {
        journal: Journal::empty(alloc),
        links: Links::start(alloc, nodes)?,
        turns: Turns::empty(alloc),
        prints: Prints::empty(alloc),
        counts: Counts::default(),
    })
}

// A span behind what has been walked.
fn append(walked: Walked, span: Span) -> Result<Walked, NoMemory>
    requires { MovesAreWithin walked.links.nodes span.moves.items }
    ensures { IfOk result (λ more. IsWalkedOn walked span more) }
{
    let Walked {
        journal,
        mut links,
        turns,
        prints,
        counts,
    } = walked;
    let counts = sum(&counts, &span.tally.counts())?;
    let (more_turns, more_prints) = span.tally.into_parts();
    carry(&mut links, &span.moves)?;
    Ok(Walked {
        journal: concat(journal, span.journal)?,
        links,
        turns: concat(turns, more_turns)?,
        prints: concat(prints, more_prints)?,
        counts,
    })
}

// A list behind another. More members than a list can have are refused as too much memory is.
fn concat<T: Copy + Drop>(list: Sequence<T>, more: Sequence<T>) -> Result<Sequence<T>, NoMemory>
    ensures { IfOk result (λ all. all ≡ list ++ more) }
{
    if list.is_empty() {
        return Ok(more);
    }
    let mut all = list;
    for member in more.members() {
        if all.len() == u32::MAX {
            return Err(NoMemory);
        }
        all.push(*member)?;
    }
    Ok(all)
}

// What has been moved goes over the links.
fn carry(links: &mut Links, moves: &[Move]) -> Result<(), NoMemory>
    requires { MovesAreWithin links.old.nodes moves.now }
    ensures nodes { OnOk result (links.new.nodes ≡ links.old.nodes) }
    ensures links { OnOk result (links.new.links ≡ links_moved links.old.nodes links.old.links moves.now) }
{
    for i in 0..moves.len() {
        let Move { from, to, sent } = moves[i];
        match sent {
            None => {
                let _taken = links.take(from, to);
            }
            Some(msg) => {
                links.reserve(1)?;
                links.send(from, to, msg);
            }
        }
    }
    Ok(())
}

// The counts of two runs, one behind the other.
fn sum(one: &Counts, other: &Counts) -> Result<Counts, NoMemory>
    ensures { IfOk result (λ counts. counts ≡ sum_of one.now other.now) }
{
    Ok(Counts {
        entries: add(one.entries, other.entries)?,
        turns: add(one.turns, other.turns)?,
        misses: add(one.misses, other.misses)?,
        evicts: add(one.evicts, other.evicts)?,
        rreq: add(one.rreq, other.rreq)?,
        wreq: add(one.wreq, other.wreq)?,
        repm: add(one.repm, other.repm)?,
        update: add(one.update, other.update)?,
        ackc: add(one.ackc, other.ackc)?,
        rdata: add(one.rdata, other.rdata)?,
        wdata: add(one.wdata, other.wdata)?,
        inv: add(one.inv, other.inv)?,
        busy: add(one.busy, other.busy)?,
        hops: add(one.hops, other.hops)?,
        handlers: add(one.handlers, other.handlers)?,
        spills: add(one.spills, other.spills)?,
        replies: add(one.replies, other.replies)?,
        used: add(one.used, other.used)?,
    })
}

// Counts that come to more than can be counted are refused as too much memory is.
#[inline(always)]
fn add(one: u64, other: u64) -> Result<u64, NoMemory>
    ensures { IfOk result (λ sum. sum ≡ one + other) }
{
    one.checked_add(other).ok_or(NoMemory)
}
