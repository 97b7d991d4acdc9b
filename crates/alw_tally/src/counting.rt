ghost use Rattle.std.specs.Prelude.{◌≡◌, ◌≤◌, ◌<◌, ◌-◌, ◌+◌, ◌^◌, false, length};
ghost use Rattle.alw_num.specs.Weights.{digit};
ghost use Rattle.alw_image.specs.Images.{hops_between};
ghost use Rattle.alw_tally.specs.Counted.{brings_line, sent_of, with_sent, with_send, with_did, with_event, with_kind, counts_of_event, AreFew, CountsAreAtMost};
ghost use Rattle.alw_tally.specs.Told.{sum_of};

use crate::moments::Moment;
use alw_image::Image;
use alw_model::{Counts, Did};
use alw_msg::{Kind, Msg, Sends};
use alw_num::{MOST_NODES, NodeNo};

/// One event more is counted. Of each number it is at most 2^25.
#[inline(always)]
pub fn count_event(counts: &mut Counts, image: &Image, moment: &Moment, used: bool, sends: &Sends)
    requires sends { length sends.now.messages ≤ MOST_NODES }
    requires few { CountsAreAtMost (2 ^ 62) counts.old }
    ensures counts { counts.new ≡ sum_of counts.old (counts_of_event image.now moment.now used sends.now.messages) }
    ensures few { CountsAreAtMost (2 ^ 25) (counts_of_event image.now moment.now used sends.now.messages) }
{
    count_act(counts, moment, used);
    count_sends(counts, image, moment.entry.event.node(), sends);
}

/// One event more is counted, whose messages are read off a log. It doesn't count as having ended a hold.
#[inline(always)]
pub fn count_logged(counts: &mut Counts, image: &Image, moment: &Moment, sends: &[(u16, Msg)])
    requires sends { length sends.now ≤ MOST_NODES }
    requires few { CountsAreAtMost (2 ^ 62) counts.old }
    ensures counts { counts.new ≡ sum_of counts.old (counts_of_event image.now moment.now false sends.now) }
    ensures few { CountsAreAtMost (2 ^ 25) (counts_of_event image.now moment.now false sends.now) }
{
    count_act(counts, moment, false);
    count_messages(counts, image, moment.entry.event.node(), sends);
}

// An event is counted, but for what it sent.
#[inline(always)]
fn count_act(counts: &mut Counts, moment: &Moment, used: bool)
    requires { CountsAreAtMost (2 ^ 62) counts.old }
    ensures { counts.new ≡ with_event moment.now used counts.old }
{
    counts.entries += 1;
    count_did(counts, moment.did);
    if brings_line(&moment.taken) {
        counts.replies += 1;
    }
    if used {
        counts.used += 1;
    }
}

// What a node did is counted.
#[inline(always)]
fn count_did(counts: &mut Counts, did: Did)
    requires { CountsAreAtMost (2 ^ 62 + 1) counts.old }
    ensures { counts.new ≡ with_did counts.old did }
{
    match did {
        Did::Turn { .. } => counts.turns += 1,
        Did::Missed { .. } => counts.misses += 1,
        Did::Evicted => counts.evicts += 1,
        Did::Handled { .. } => {
            counts.handlers += 1;
            counts.spills += one_if(did.is_spill());
        }
        Did::Took | Did::Packet => {}
    }
}

// What a node sends is counted: of each number it is at most 131,072 a message.
#[inline(always)]
fn count_sends(counts: &mut Counts, image: &Image, from: NodeNo, sends: &Sends)
    requires sends { length sends.now.messages ≤ MOST_NODES }
    requires few { CountsAreAtMost (2 ^ 62 + 1) counts.old }
    ensures counts { counts.new ≡ with_sent (sent_of image.now from.0 sends.now.messages) counts.old }
    ensures few { AreFew (2 ^ 25) (sent_of image.now from.0 sends.now.messages) }
{
    for i in 0..sends.len() {
        let (to, msg) = sends.at(i);
        count_send(counts, image, from, to, msg.kind);
    }
}

// The same of messages that are read off a log.
fn count_messages(counts: &mut Counts, image: &Image, from: NodeNo, sends: &[(u16, Msg)])
    requires sends { length sends.now ≤ MOST_NODES }
    requires few { CountsAreAtMost (2 ^ 62 + 1) counts.old }
    ensures counts { counts.new ≡ with_sent (sent_of image.now from.0 sends.now) counts.old }
    ensures few { AreFew (2 ^ 25) (sent_of image.now from.0 sends.now) }
{
    for i in 0..sends.len() {
        let (to, msg) = sends[i];
        count_send(counts, image, from, NodeNo(to), msg.kind);
    }
}

// A message is counted, by its kind and its way.
#[inline(always)]
fn count_send(counts: &mut Counts, image: &Image, from: NodeNo, to: NodeNo, kind: Kind)
    requires { CountsAreAtMost (2 ^ 63 - 2 ^ 17) counts.old }
    ensures counts { counts.new ≡ with_send image.now from.0 to.0 kind counts.old }
    ensures few { hops_between image.now from.0 to.0 < 2 ^ 17 }
{
    counts.hops += image.hops(from, to);
    add_kind(counts, kind);
}

// One message of a kind more.
fn add_kind(counts: &mut Counts, kind: Kind)
    requires { CountsAreAtMost (2 ^ 63) counts.old }
    ensures { counts.new ≡ with_kind counts.old kind }
{
    match kind {
        Kind::RREQ => counts.rreq += 1,
        Kind::WREQ => counts.wreq += 1,
        Kind::REPM => counts.repm += 1,
        Kind::UPDATE => counts.update += 1,
        Kind::ACKC => counts.ackc += 1,
        Kind::RDATA => counts.rdata += 1,
        Kind::WDATA => counts.wdata += 1,
        Kind::INV => counts.inv += 1,
        Kind::BUSY => counts.busy += 1,
    }
}

// A message, if there is one, brings a line to a cache.
#[inline(always)]
fn brings_line(taken: &Option<Msg>) -> bool
    ensures { result ≡ brings_line taken.now }
{
    match taken {
        Some(msg) => matches!(msg.kind, Kind::RDATA | Kind::WDATA),
        None => false,
    }
}

fn one_if(test: bool) -> u64
    ensures value { result ≡ digit test }
    ensures most { result ≤ 1 }
{
    if test { 1 } else { 0 }
}
