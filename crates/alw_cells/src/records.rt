ghost use Rattle.std.specs.Prelude.{◌≡◌, ◌+◌, ◌≤◌, ◌==◌, ◌&&◌, length, drop, slice_index};
ghost use Rattle.alw_msg.specs.Kinds.{has_body};
ghost use Rattle.alw_cells.specs.Records.{word_in, half_in, kind_by, event_in, body_size, body_in, taken_msg, msg_size, sent_msg, sent_size, behind_sends, HasSends, taken_in, taken_size, entry_in, count_in, sends_at};

use alw_msg::{Entry, Event, Kind, Msg};
use alw_num::{Line, LineNo, NodeNo};
use byteorder::{BigEndian, ByteOrder};

/// The entry of the record at the front of the bytes of a node's log.
#[tactic(auto, unfolding(crate::specs::Records::entry_in))]
#[inline(always)]
pub fn entry_at(node: NodeNo, bytes: &[u8]) -> Entry
    requires { 11 ≤ length bytes.now }
    ensures { result ≡ entry_in node.0 bytes.now }
{
    Entry {
        stamp: word_at(bytes),
        event: event_at(node, bytes),
    }
}

/// The number of messages that the event of the record at the front sent.
#[tactic(auto, unfolding(crate::specs::Records::count_in))]
#[inline(always)]
pub fn count_at(bytes: &[u8]) -> u16
    requires { 11 + taken_size bytes.now ≤ length bytes.now }
    ensures { result ≡ count_in bytes.now }
{
    half_at(&bytes[9 + size_taken(bytes)..])
}

/// Whether the event of the record at the front is an instruction that sent nothing.
#[inline(always)]
pub fn is_plain_at(bytes: &[u8]) -> bool
    requires { 11 + taken_size bytes.now ≤ length bytes.now }
    ensures { result ≡ (slice_index bytes.now 4 == 0) && (count_in bytes.now == 0) }
{
    bytes[4] == 0 && count_at(bytes) == 0
}

/// The messages that the event of the record at the front sent, and the bytes behind them.
#[tactic(auto, unfolding(crate::specs::Records::sends_at))]
#[inline(always)]
pub fn sends_of(bytes: &[u8]) -> &[u8]
    requires { 11 + taken_size bytes.now ≤ length bytes.now }
    ensures { result.now ≡ sends_at bytes.now }
{
    &bytes[11 + size_taken(bytes)..]
}

/// The message that was sent at the front, and its receiver, given the node and the stamp of the event.
#[tactic(auto, unfolding(crate::specs::Records::sent_msg, crate::specs::Records::sent_size))]
pub fn sent_at(node: NodeNo, stamp: u32, bytes: &[u8]) -> (u16, Msg)
    requires { sent_size bytes.now ≤ length bytes.now }
    ensures { result ≡ sent_msg node.0 stamp bytes.now }
{
    let kind = kind_of(bytes[2]);
    let msg = Msg {
        kind,
        line: LineNo(word_at(&bytes[3..])),
        src: node,
        stamp,
        body: body_at(kind, &bytes[7..]),
    };
    (half_at(bytes), msg)
}

/// What stands behind so many messages that were sent.
#[inline(always)]
pub fn skip(bytes: &[u8], count: u16) -> &[u8]
    requires { HasSends count bytes.now }
    ensures { result.now ≡ behind_sends count bytes.now }
{
    let mut rest = bytes;
    let mut left = count;
    while left > 0 {
        rest = behind(rest);
        left -= 1;
    }
    rest
}

// What stands behind the message that was sent at the front.
#[tactic(auto, unfolding(crate::specs::Records::sent_size))]
fn behind(bytes: &[u8]) -> &[u8]
    requires { sent_size bytes.now ≤ length bytes.now }
    ensures { result.now ≡ drop (sent_size bytes.now) bytes.now }
{
    &bytes[7 + size_of_body(kind_of(bytes[2]))..]
}

// The event of the record at the front of the bytes of a node's log.
#[tactic(auto, unfolding(crate::specs::Records::event_in, crate::specs::Records::event_by))]
#[inline(always)]
fn event_at(node: NodeNo, bytes: &[u8]) -> Event
    requires { 9 ≤ length bytes.now }
    ensures { result ≡ event_in node.0 bytes.now }
{
    match bytes[4] {
        0 => Event::Instr { node },
        1 => Event::Deliver {
            from: NodeNo(half_at(&bytes[7..])),
            to: node,
        },
        2 => Event::Handle { node },
        _ => Event::Evict {
            node,
            set: word_at(&bytes[5..]),
        },
    }
}

/// The message that the event of the record at the front took. Only a delivery takes one.
#[tactic(auto, unfolding(crate::specs::Records::taken_in, crate::specs::Records::taken_size))]
#[inline(always)]
pub fn taken_at(bytes: &[u8]) -> Option<Msg>
    requires { 11 + taken_size bytes.now ≤ length bytes.now }
    ensures { result ≡ taken_in bytes.now }
{
    if bytes[4] == 1 {
        Some(msg_at(&bytes[9..]))
    } else {
        None
    }
}

// In how many bytes it stands.
#[tactic(auto, unfolding(crate::specs::Records::taken_size, crate::specs::Records::msg_size))]
#[inline(always)]
fn size_taken(bytes: &[u8]) -> usize
    requires { 11 ≤ length bytes.now }
    ensures { result ≡ taken_size bytes.now }
{
    if bytes[4] == 1 {
        11 + size_of_body(kind_of(bytes[9]))
    } else {
        0
    }
}

// The message that was taken, at the front.
#[tactic(auto, unfolding(crate::specs::Records::taken_msg, crate::specs::Records::msg_size))]
fn msg_at(bytes: &[u8]) -> Msg
    requires { msg_size bytes.now ≤ length bytes.now }
    ensures { result ≡ taken_msg bytes.now }
{
    let kind = kind_of(bytes[0]);
    Msg {
        kind,
        line: LineNo(word_at(&bytes[1..])),
        src: NodeNo(half_at(&bytes[5..])),
        stamp: word_at(&bytes[7..]),
        body: body_at(kind, &bytes[11..]),
    }
}

// The line that a message of a kind carries, at the front.
#[tactic(auto, unfolding(crate::specs::Records::body_in, crate::specs::Records::body_size))]
fn body_at(kind: Kind, bytes: &[u8]) -> Line
    requires { body_size kind ≤ length bytes.now }
    ensures { result ≡ body_in kind bytes.now }
{
    if !kind.carries_body() {
        return Line::ZERO;
    }
    Line {
        a: word_at(bytes),
        b: word_at(&bytes[4..]),
        c: word_at(&bytes[8..]),
        d: word_at(&bytes[12..]),
    }
}

// In how many bytes it stands.
#[tactic(auto, unfolding(crate::specs::Records::body_size))]
fn size_of_body(kind: Kind) -> usize
    ensures size { result ≡ body_size kind }
    ensures few { result ≤ 16 }
{
    if kind.carries_body() { 16 } else { 0 }
}

// The kind of a number.
#[tactic(auto, unfolding(crate::specs::Records::kind_by))]
fn kind_of(number: u8) -> Kind
    ensures { result ≡ kind_by number }
{
    match number {
        0 => Kind::RREQ,
        1 => Kind::WREQ,
        2 => Kind::REPM,
        3 => Kind::UPDATE,
        4 => Kind::ACKC,
        5 => Kind::RDATA,
        6 => Kind::WDATA,
        7 => Kind::INV,
        _ => Kind::BUSY,
    }
}

// The number in the first four bytes.
#[tactic(auto, unfolding(crate::specs::Records::word_in))]
#[inline(always)]
fn word_at(bytes: &[u8]) -> u32
    requires { 4 ≤ length bytes.now }
    ensures { result ≡ word_in bytes.now }
{
    BigEndian::read_u32(bytes)
}

// The number in the first two bytes.
#[tactic(auto, unfolding(crate::specs::Records::half_in))]
#[inline(always)]
fn half_at(bytes: &[u8]) -> u16
    requires { 2 ≤ length bytes.now }
    ensures { result ≡ half_in bytes.now }
{
    BigEndian::read_u16(bytes)
}
