ghost use Rattle.std.specs.Prelude.{◌≡◌, ◌+◌, ◌≤◌, ◌<◌, ◌*◌, ℕ, [], None, length, IfOk, IfSome, IfNone, OnOk};
ghost use Rattle.alw_msg.specs.declared.events.Event.TheVariants.{Instr};
ghost use Rattle.alw_msg.specs.Events.{node_of};
ghost use Rattle.alw_msg.specs.Lists.{front, behind};
ghost use Rattle.alw_model.specs.Threads.{log_at, merged};
ghost use Rattle.alw_cells.specs.Logs.{entry_of, logged, sent_of};
ghost use Rattle.alw_cells.specs.Records.{Ascends};
ghost use Rattle.alw_merge.specs.Heads.{HaveJoined};
ghost use Rattle.alw_merge.specs.Spans.{is_behind, log_from, logs_from};
ghost use Rattle.alw_merge.specs.Streams.{key_of, heads_of, left_of, ReadingGoesOn, EventIsReadOff, IsPlain, Reads};
ghost use Rattle.std.specs.Option.{option_map};

use crate::heads::Heads;
use alw_cells::{Cursor, Logs};
use alw_msg::{Entry, Event, Msg};
use alw_num::{NoMemory, NodeNo};
use std::alloc::Global;
use std::marker::Model;

// There are no more logs than node numbers, so that a place among them fits the lowest 16 bits of a key.
const MOST_LOGS: u32 = 65536;

/// An event of a merge: the place of its log, its entry, and the message that it took.
#[derive(Clone, Copy)]
pub struct Read {
    pub log: u32,
    pub entry: Entry,
    pub taken: Option<Msg>,
}

/// The merge of logs, event by event: logs that are read side by side, and their heads. A head is kept as
/// one number, by which heads are ordered: its stamp, its node and the log's place (Lamport 1978).
/// Contracts see what is left of each log.
#[derive(Drop)]
pub struct Stream<'a> {
    readings: Vec<Cursor<'a>>,
    heads: Heads,
}

impl<'a> Model for Stream<'a> {
    ghost use Rattle.std.specs.Prelude.{map};
    ghost use Rattle.alw_model.specs.Threads.{Logs};
    ghost use Rattle.alw_merge.specs.Streams.{left_of, StreamIsUnderWay};

    ghost Value = { Logs };

    ghost view = { λ s. map left_of s.readings.items };

    ghost invariant = { λ s. StreamIsUnderWay s.readings.items s.heads };
}

impl<'a> Stream<'a> {
    // Logs that are read from a stamp on. More of them than there are node numbers are refused.
    pub(crate) fn from(alloc: Global, logs: &'a Logs, stamp: u64) -> Result<Stream<'a>, NoMemory>
        ensures { IfOk result (λ stream. stream ≡ logs_from stamp (logged logs.now)) }
    {
        let count = logs.len();
        if count > MOST_LOGS {
            return Err(NoMemory);
        }
        let mut readings = Vec::with_capacity(alloc, count as usize)?;
        let mut heads = Heads::room(alloc, count)?;
        for at in 0..count {
            let mut reading = logs.at_ref(at).cursor();
            add(&mut heads, at, 0, skip_to(&mut reading, stamp));
            readings.push_reserved(reading);
        }
        Ok(Stream { readings, heads })
    }

    // The number of events that are left of a log.
    pub(crate) fn left(&self, log: u32) -> usize
        requires { log < length self.now }
        ensures { result ≡ length (log_at self.now log) }
    {
        let reading = &self.readings[log as usize];
        reading.left() as usize + usize::from(reading.entry().is_some())
    }

    // There is no next entry, or its stamp isn't below an end.
    #[inline(always)]
    pub(crate) fn is_past(&self, end: Option<u64>) -> bool
        ensures { result ≡ is_behind end (front (merged self.now)) }
    {
        match (self.heads.least(), end) {
            (Some(head), Some(end)) => end <= stamp_in(head),
            (Some(_), None) => false,
            (None, _) => true,
        }
    }

    /// The next entry of the merge. None exactly at the end.
    pub fn next(&mut self) -> Option<Entry>
        ensures entry { result ≡ front (merged self.old) }
        ensures left { merged self.new ≡ behind (merged self.old) }
    {
        let head = self.heads.least()?;
        let log = place_in(head);
        let reading = &mut self.readings[log as usize];
        let entry = reading.entry();
        self.heads.pop(head);
        go_on(&mut self.heads, log, head, reading);
        entry
    }

    /// The next event of the merge, as its log says it; the messages that it sent go into a list in place of
    /// others. None exactly at the end.
    #[inline(always)]
    pub(crate) fn event(&mut self, sends: &mut Vec<(u16, Msg)>) -> Result<Option<Read>, NoMemory>
        ensures { IfOk result (λ read. Reads self.old read sends.new.items self.new) }
    {
        let Some(head) = self.heads.least() else {
            return Ok(None);
        };
        let log = place_in(head);
        let reading = &self.readings[log as usize];
        let Some(entry) = reading.entry() else {
            unreachable!();
        };
        let taken = reading.taken();
        collect(reading, sends)?;
        self.heads.pop(head);
        go_on(&mut self.heads, log, head, &mut self.readings[log as usize]);
        Ok(Some(Read { log, entry, taken }))
    }

    /// The next event of the merge, where it is an instruction that took and sent nothing. None where it is
    /// another one or there is none, and then all is as it was.
    #[inline(always)]
    pub(crate) fn plain(&mut self) -> Option<Read>
        ensures read { IfSome result (λ read. EventIsReadOff self.old read [] self.new) }
        ensures plain { IfSome result IsPlain }
        ensures none { IfNone result (self.new ≡ self.old) }
    {
        let head = self.heads.least()?;
        let log = place_in(head);
        let reading = &mut self.readings[log as usize];
        if !reading.is_plain() {
            return None;
        }
        self.heads.pop(head);
        go_on(&mut self.heads, log, head, reading);
        Some(Read {
            log,
            entry: instr_in(head),
            taken: None,
        })
    }
}

// The next entry of a log as a number: those of an earlier stamp, and then of a lower node, are lower.
#[inline(always)]
fn key(log: u32, entry: Entry) -> u64
    requires { log < 65536 }
    ensures key { result ≡ key_of log entry }
    ensures node { node_of entry.event < 65536 }
{
    (u64::from(entry.stamp) * 65536 + u64::from(entry.event.node().0)) * 65536 + u64::from(log)
}

// The place of the log whose head this is.
#[inline(always)]
fn place_in(head: u64) -> u32
    ensures { (rest : ℕ) → (log : ℕ) → log < 65536 → head ≡ rest * 65536 + log → result ≡ log }
{
    (head % 65536) as u32
}

// The stamp of the entry whose head this is.
#[inline(always)]
fn stamp_in(head: u64) -> u64
    ensures { (stamp node log : ℕ) → node < 65536 → log < 65536 → head ≡ (stamp * 65536 + node) * 65536 + log → result ≡ stamp }
{
    head / 65536 / 65536
}

// The entry of the instruction whose head this is.
#[inline(always)]
fn instr_in(head: u64) -> Entry
    ensures stamp { (stamp node log : ℕ) → node < 65536 → log < 65536 → head ≡ (stamp * 65536 + node) * 65536 + log → result.stamp ≡ stamp }
    ensures event { (stamp node log : ℕ) → node < 65536 → log < 65536 → head ≡ (stamp * 65536 + node) * 65536 + log → result.event ≡ Instr (record { 0 = node }) }
{
    Entry {
        stamp: (head / 65536 / 65536) as u32,
        event: Event::Instr {
            node: NodeNo((head / 65536 % 65536) as u16),
        },
    }
}

// Reads a log on to its first event at or behind a stamp, and answers its entry. None exactly where there is
// none.
fn skip_to(reading: &mut Cursor<'_>, stamp: u64) -> Option<Entry>
    requires begun { reading.old.given ≡ None }
    requires ascends { Ascends reading.old.left }
    ensures entry { result ≡ option_map entry_of reading.new.given }
    ensures left { left_of reading.new ≡ log_from stamp reading.old.left }
    ensures ends { reading.new.given ≡ None → reading.new.left ≡ [] }
    ensures ascends { Ascends (left_of reading.new) }
{
    let mut entry = reading.next();
    while let Some(next) = entry {
        if stamp <= u64::from(next.stamp) {
            return entry;
        }
        entry = reading.next();
    }
    None
}

// A log goes on to its next event, whose head joins the others.
#[inline(always)]
fn go_on(heads: &mut Heads, log: u32, last: u64, reading: &mut Cursor<'_>)
    requires log { log < 65536 }
    requires room { length heads.old.heads < heads.old.most }
    ensures goes { ReadingGoesOn log reading.old reading.new heads.old heads.new }
{
    add(heads, log, last, reading.next());
}

// The head of a log joins others, where the log has one.
#[inline(always)]
fn add(heads: &mut Heads, log: u32, last: u64, entry: Option<Entry>)
    requires log { log < 65536 }
    requires room { length heads.old.heads < heads.old.most }
    ensures joins { HaveJoined heads.old.heads (heads_of log entry) heads.new.heads }
    ensures most { heads.new.most ≡ heads.old.most }
    ensures nodes { IfSome entry (λ entry. node_of entry.event < 65536) }
{
    if let Some(entry) = entry {
        heads.push(key(log, entry), last);
    }
}

// The messages that the event given last sent, each with its receiver, in place of others.
#[inline(always)]
fn collect(log: &Cursor<'_>, sends: &mut Vec<(u16, Msg)>) -> Result<(), NoMemory>
    ensures { OnOk result (sends.new.items ≡ sent_of log.now.given) }
{
    sends.clear();
    let mut i = 0;
    while let Some((to, msg)) = log.sent(i) {
        sends.push((to.0, msg))?;
        i += 1;
    }
    Ok(())
}
