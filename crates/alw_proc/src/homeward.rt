ghost use Rattle.std.specs.Prelude.{◌≡◌, ◌<◌, ◌≤◌, ◌*◌, ◌/◌, [], IfSome};
ghost use Rattle.std.specs.Option.{option_map};
ghost use Rattle.alw_num.specs.Maps.{value_at};
ghost use Rattle.alw_msg.specs.Sending.{with_message};
ghost use Rattle.alw_model.specs.Caches.{set_of, copy_at, fill, invalidate, evict, evicted};
ghost use Rattle.alw_cache.specs.Places.{copy_of};
ghost use Rattle.alw_proc.specs.Processors.{HoldsLine};
ghost use Rattle.alw_proc.specs.Homeward.{with_requests, copy_left};

use alw_cache::{Cache, Evicted};
use alw_msg::{Kind, Sends};
use alw_num::{Divisor, Line, LineNo, Mode, NodeNo};

/// The lines of shared data, at most so many, and how many of them each node keeps.
#[derive(Clone, Copy)]
pub struct Homes {
    pub lines: u32,
    pub per_node: Divisor,
}

/// Sends a message to the home of a line.
pub fn send(kind: Kind, line: LineNo, body: Line, per_node: Divisor, sent: &mut Sends)
    requires home { line.0 / per_node < 65536 }
    requires empty { sent.old.messages ≡ [] }
    requires room { 0 < sent.old.room }
    ensures { sent.new ≡ with_message sent.old (line.0 / per_node) kind line body }
{
    sent.push(NodeNo(per_node.quotient(line.0) as u16), kind, line, body);
}

/// A copy that has left a cache goes home as REPM where it is Read-Write, and is dropped else.
pub fn give_up(left: Option<Evicted>, per_node: Divisor, sent: &mut Sends)
    requires home { IfSome left (λ copy. copy.line.0 / per_node < 65536) }
    requires empty { sent.old.messages ≡ [] }
    requires room { 0 < sent.old.room }
    ensures { sent.new ≡ with_requests per_node sent.old (evicted (option_map copy_left left)) }
{
    if let Some(copy) = left {
        match copy.mode {
            Mode::Write => send(Kind::REPM, copy.line, copy.body, per_node, sent),
            Mode::Read => {}
        }
    }
}

/// A copy comes into its set, and what it replaces goes home.
pub fn fill(cache: &mut Cache, line: LineNo, mode: Mode, body: Line, homes: Homes, sent: &mut Sends)
    requires per_node { 1 ≤ homes.per_node }
    requires nodes { homes.lines ≤ 65536 * homes.per_node }
    requires held { HoldsLine homes.lines (value_at cache.old.copies (set_of cache.old.sets line.0)) }
    requires empty { sent.old.messages ≡ [] }
    requires room { 0 < sent.old.room }
    ensures cache { cache.new ≡ record cache.old { copies = (fill cache.old.sets cache.old.copies (copy_of line.0 mode body)).0 } }
    ensures sends { sent.new ≡ with_requests homes.per_node sent.old (fill cache.old.sets cache.old.copies (copy_of line.0 mode body)).1 }
{
    let left = cache.fill(line, mode, body);
    give_up(left, homes.per_node, sent);
}

/// INV: the line is Invalid afterwards. UPDATE answers where it was Read-Write, and else ACKC.
pub fn invalidate(cache: &mut Cache, line: LineNo, per_node: Divisor, sent: &mut Sends)
    requires home { line.0 / per_node < 65536 }
    requires empty { sent.old.messages ≡ [] }
    requires room { 0 < sent.old.room }
    ensures cache { cache.new ≡ record cache.old { copies = (invalidate cache.old.sets cache.old.copies line.0 (copy_at cache.old.sets cache.old.copies line.0)).0 } }
    ensures sends { sent.new ≡ with_requests per_node sent.old (invalidate cache.old.sets cache.old.copies line.0 (copy_at cache.old.sets cache.old.copies line.0)).1 }
{
    match cache.drop_line(line) {
        Some(copy) => match copy.mode {
            Mode::Write => send(Kind::UPDATE, line, copy.body, per_node, sent),
            Mode::Read => send(Kind::ACKC, line, Line::ZERO, per_node, sent),
        },
        None => send(Kind::ACKC, line, Line::ZERO, per_node, sent),
    }
}

/// An eviction empties a set, and what it held goes home.
pub fn evict(cache: &mut Cache, set: u32, homes: Homes, sent: &mut Sends)
    requires set { set < cache.old.sets }
    requires per_node { 1 ≤ homes.per_node }
    requires nodes { homes.lines ≤ 65536 * homes.per_node }
    requires held { HoldsLine homes.lines (value_at cache.old.copies set) }
    requires empty { sent.old.messages ≡ [] }
    requires room { 0 < sent.old.room }
    ensures cache { cache.new ≡ record cache.old { copies = (evict cache.old.copies set).0 } }
    ensures sends { sent.new ≡ with_requests homes.per_node sent.old (evict cache.old.copies set).1 }
{
    if let Some(line) = cache.held(set) {
        let left = cache.drop_line(line);
        give_up(left, homes.per_node, sent);
    }
}
