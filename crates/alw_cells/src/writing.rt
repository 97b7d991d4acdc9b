ghost use Rattle.std.specs.Prelude.{◌≡◌, ◌+◌, ◌*◌, ◌≤◌, ◌<◌, ◌^◌, ◌∷◌, ◌++◌, [], length, flat_map, vec_capacity, IfSome};
ghost use Rattle.std.specs.List.{AllByRecursion};
ghost use Rattle.alw_cells.specs.Layout.{word, half, tag_of, argument_of, body_bytes, taken_bytes, sent_bytes, front_bytes, back_bytes, record_bytes};
ghost use Rattle.alw_cells.specs.Records.{FitsLine, FitsMsg, FitsSend, FitsEvent, FitsRecord};

use alw_msg::{Entry, Event, Kind, Msg, Sends};
use alw_num::Line;

/// The record of an event goes behind bytes. Mostly the event took and sent nothing.
#[inline(always)]
pub fn put_record(bytes: &mut Vec<u8>, entry: Entry, taken: Option<Msg>, sent: &Sends)
    requires room { length bytes.old.items + 38 + 23 * length sent.now.messages ≤ vec_capacity bytes.old }
    requires few { length sent.now.messages < 2 ^ 16 }
    ensures items { bytes.new.items ≡ bytes.old.items ++ record_bytes (record { entry = entry; taken = taken; sent = sent.now.messages }) }
    ensures len { length bytes.new.items ≤ length bytes.old.items + 38 + 23 * length sent.now.messages }
    ensures room { vec_capacity bytes.old ≤ vec_capacity bytes.new }
    ensures fits { FitsRecord (record { entry = entry; taken = taken; sent = sent.now.messages }) }
{
    if taken.is_none() && sent.is_empty() {
        put_plain(bytes, entry);
        return;
    }
    put_entry(bytes, entry);
    put_taken(bytes, taken);
    put_sends(bytes, sent);
}

// The record of an event that took and sent nothing goes behind bytes.
#[tactic(auto, unfolding(crate::specs::Layout::front_bytes, crate::specs::Layout::back_bytes, crate::specs::Layout::word, crate::specs::Layout::half))]
#[inline(always)]
fn put_plain(bytes: &mut Vec<u8>, entry: Entry)
    requires { length bytes.old.items + 11 ≤ vec_capacity bytes.old }
    ensures items { bytes.new.items ≡ bytes.old.items ++ (front_bytes entry ++ back_bytes []) }
    ensures len { length bytes.new.items ≡ length bytes.old.items + 11 }
    ensures room { vec_capacity bytes.old ≤ vec_capacity bytes.new }
    ensures stamp { entry.stamp < 2 ^ 32 }
    ensures event { FitsEvent entry.event }
{
    let [a, b, c, d] = entry.stamp.to_be_bytes();
    let [e, f, g, h] = argument(entry.event).to_be_bytes();
    put_bytes(bytes, &[a, b, c, d, tag(entry.event), e, f, g, h, 0, 0]);
}

// The event of a record, with its stamp, goes behind bytes.
#[tactic(auto, unfolding(crate::specs::Layout::front_bytes))]
#[inline(always)]
fn put_entry(bytes: &mut Vec<u8>, entry: Entry)
    requires { length bytes.old.items + 9 ≤ vec_capacity bytes.old }
    ensures items { bytes.new.items ≡ bytes.old.items ++ front_bytes entry }
    ensures len { length bytes.new.items ≡ length bytes.old.items + 9 }
    ensures room { vec_capacity bytes.old ≤ vec_capacity bytes.new }
    ensures stamp { entry.stamp < 2 ^ 32 }
    ensures event { FitsEvent entry.event }
{
    put_word(bytes, entry.stamp);
    put_byte(bytes, tag(entry.event));
    put_word(bytes, argument(entry.event));
}

// The message that an event took goes behind bytes, where it took one.
#[tactic(auto, unfolding(crate::specs::Layout::taken_bytes))]
#[inline(always)]
fn put_taken(bytes: &mut Vec<u8>, taken: Option<Msg>)
    requires { length bytes.old.items + 27 ≤ vec_capacity bytes.old }
    ensures items { bytes.new.items ≡ bytes.old.items ++ taken_bytes taken }
    ensures len { length bytes.new.items ≤ length bytes.old.items + 27 }
    ensures room { vec_capacity bytes.old ≤ vec_capacity bytes.new }
    ensures fits { IfSome taken FitsMsg }
{
    if let Some(msg) = taken {
        put_byte(bytes, msg.kind.number());
        put_word(bytes, msg.line.0);
        put_half(bytes, msg.src.0);
        put_word(bytes, msg.stamp);
        put_body(bytes, msg.kind, msg.body);
    }
}

// The messages that an event sent go behind bytes, and their number before them.
#[inline(always)]
fn put_sends(bytes: &mut Vec<u8>, sent: &Sends)
    requires room { length bytes.old.items + 2 + 23 * length sent.now.messages ≤ vec_capacity bytes.old }
    requires few { length sent.now.messages < 2 ^ 16 }
    ensures items { bytes.new.items ≡ bytes.old.items ++ back_bytes sent.now.messages }
    ensures len { length bytes.new.items ≤ length bytes.old.items + 2 + 23 * length sent.now.messages }
    ensures room { vec_capacity bytes.old ≤ vec_capacity bytes.new }
    ensures fits { AllByRecursion FitsSend sent.now.messages }
{
    put_half(bytes, sent.len() as u16);
    for i in 0..sent.len() {
        let (to, msg) = sent.at(i);
        put_sent(bytes, to.0, msg);
    }
}

// A message that was sent goes behind bytes, after its receiver.
#[tactic(auto, unfolding(crate::specs::Layout::sent_bytes))]
fn put_sent(bytes: &mut Vec<u8>, to: u16, msg: Msg)
    requires { length bytes.old.items + 23 ≤ vec_capacity bytes.old }
    ensures items { bytes.new.items ≡ bytes.old.items ++ sent_bytes (to, msg) }
    ensures len { length bytes.new.items ≤ length bytes.old.items + 23 }
    ensures room { vec_capacity bytes.old ≤ vec_capacity bytes.new }
    ensures fits { FitsSend (to, msg) }
{
    put_half(bytes, to);
    put_byte(bytes, msg.kind.number());
    put_word(bytes, msg.line.0);
    put_body(bytes, msg.kind, msg.body);
}

// The line that a message carries goes behind bytes, where its kind carries one.
#[tactic(auto, unfolding(crate::specs::Layout::body_bytes))]
fn put_body(bytes: &mut Vec<u8>, kind: Kind, body: Line)
    requires { length bytes.old.items + 16 ≤ vec_capacity bytes.old }
    ensures items { bytes.new.items ≡ bytes.old.items ++ body_bytes kind body }
    ensures len { length bytes.new.items ≤ length bytes.old.items + 16 }
    ensures room { vec_capacity bytes.old ≤ vec_capacity bytes.new }
    ensures fits { FitsLine body }
{
    if kind.carries_body() {
        put_word(bytes, body.a);
        put_word(bytes, body.b);
        put_word(bytes, body.c);
        put_word(bytes, body.d);
    }
}

// Which event it is.
#[inline(always)]
fn tag(event: Event) -> u8
    ensures { result ≡ tag_of event }
{
    match event {
        Event::Instr { .. } => 0,
        Event::Deliver { .. } => 1,
        Event::Handle { .. } => 2,
        Event::Evict { .. } => 3,
    }
}

// The sender of a delivery, the set of an eviction, and else 0.
#[inline(always)]
fn argument(event: Event) -> u32
    ensures argument { result ≡ argument_of event }
    ensures fits { FitsEvent event }
{
    match event {
        Event::Deliver { from, .. } => u32::from(from.0),
        Event::Evict { set, .. } => set,
        Event::Instr { .. } | Event::Handle { .. } => 0,
    }
}

// A number in four bytes goes behind others.
#[tactic(auto, unfolding(crate::specs::Layout::word))]
#[inline(always)]
fn put_word(bytes: &mut Vec<u8>, number: u32)
    requires { length bytes.old.items + 4 ≤ vec_capacity bytes.old }
    ensures items { bytes.new.items ≡ bytes.old.items ++ word number }
    ensures len { length bytes.new.items ≡ length bytes.old.items + 4 }
    ensures room { vec_capacity bytes.old ≤ vec_capacity bytes.new }
{
    put_bytes(bytes, &number.to_be_bytes());
}

// A number in two bytes goes behind others.
#[tactic(auto, unfolding(crate::specs::Layout::half))]
#[inline(always)]
fn put_half(bytes: &mut Vec<u8>, number: u16)
    requires { length bytes.old.items + 2 ≤ vec_capacity bytes.old }
    ensures items { bytes.new.items ≡ bytes.old.items ++ half number }
    ensures len { length bytes.new.items ≡ length bytes.old.items + 2 }
    ensures room { vec_capacity bytes.old ≤ vec_capacity bytes.new }
{
    put_bytes(bytes, &number.to_be_bytes());
}

// Bytes go behind others, for which there is room.
#[inline(always)]
fn put_bytes(bytes: &mut Vec<u8>, more: &[u8])
    requires { length bytes.old.items + length more.now ≤ vec_capacity bytes.old }
    ensures items { bytes.new.items ≡ bytes.old.items ++ more.now }
    ensures len { length bytes.new.items ≡ length bytes.old.items + length more.now }
    ensures room { vec_capacity bytes.old ≤ vec_capacity bytes.new }
{
    match bytes.extend_from_slice(more) {
        Ok(()) => {}
        Err(_) => unreachable!(),
    }
}

// A byte goes behind others.
#[inline(always)]
fn put_byte(bytes: &mut Vec<u8>, byte: u8)
    requires { length bytes.old.items + 1 ≤ vec_capacity bytes.old }
    ensures items { bytes.new.items ≡ bytes.old.items ++ byte ∷ [] }
    ensures len { length bytes.new.items ≡ length bytes.old.items + 1 }
    ensures room { vec_capacity bytes.old ≤ vec_capacity bytes.new }
{
    bytes.push_reserved(byte);
}
