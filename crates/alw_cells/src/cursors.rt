ghost use Rattle.std.specs.Prelude.{◌≡◌, ◌<◌, ◌^◌, length, slice_get, IfSome};
ghost use Rattle.std.specs.Option.{option_map};
ghost use Rattle.alw_msg.specs.Lists.{front, behind};
ghost use Rattle.alw_cells.specs.Records.{records_in, HasRecords};
ghost use Rattle.alw_cells.specs.Logs.{reading_of, after_next, taken_of, sent_of, entry_of};
ghost use Rattle.alw_cells.specs.Plain.{is_plain};

use crate::records::{count_at, entry_at, is_plain_at, sends_of, sent_at, skip, taken_at};
use alw_msg::{Entry, Msg};
use alw_num::NodeNo;
use std::marker::Model;

/// A log that is read, event by event. Contracts see the event given last, and those that are left.
#[derive(Drop)]
pub struct Cursor<'a> {
    node: NodeNo,
    has_given: bool,
    given: &'a [u8],
    left: u32,
    rest: &'a [u8],
}

impl<'a> Model for Cursor<'a> {
    ghost use Rattle.std.specs.Prelude.{◌<◌, ◌^◌};
    ghost use Rattle.alw_cells.specs.Logs.{Reading};
    ghost use Rattle.alw_cells.specs.Records.{read_off, HasGiven, HasRecords};

    ghost Value = { Reading };

    ghost view = { λ c. read_off c.node.0 c.has_given c.given.now c.left c.rest.now };

    ghost invariant = { λ c. HasGiven c.has_given c.given.now × HasRecords c.left c.rest.now };
}

impl<'a> Cursor<'a> {
    // So many records of a node are read from their beginning.
    pub(crate) fn over(node: NodeNo, count: u32, bytes: &'a [u8]) -> Cursor<'a>
        requires { HasRecords count bytes.now }
        ensures { result ≡ reading_of (records_in node.0 count bytes.now) }
    {
        Cursor {
            node,
            has_given: false,
            given: bytes,
            left: count,
            rest: bytes,
        }
    }

    /// The number of events behind the one given last.
    pub fn left(&self) -> u32
        ensures { result ≡ length self.now.left }
    {
        self.left
    }

    /// The next event's entry. None exactly at the end.
    #[inline(always)]
    pub fn next(&mut self) -> Option<Entry>
        ensures entry { result ≡ option_map entry_of (front self.old.left) }
        ensures reading { self.new ≡ after_next self.old }
    {
        if self.left == 0 {
            self.has_given = false;
            return None;
        }
        self.given = self.rest;
        self.has_given = true;
        self.left -= 1;
        self.rest = skip(sends_of(self.given), count_at(self.given));
        Some(entry_at(self.node, self.given))
    }

    /// The entry of the event given last. None exactly where the last `next` gave no event or none was asked
    /// for yet.
    #[inline(always)]
    pub fn entry(&self) -> Option<Entry>
        ensures { result ≡ option_map entry_of self.now.given }
    {
        if self.has_given {
            Some(entry_at(self.node, self.given))
        } else {
            None
        }
    }

    /// The message that the event given last took. None exactly where it took none, or where the last
    /// `next` gave no event or none was asked for yet.
    #[inline(always)]
    pub fn taken(&self) -> Option<Msg>
        ensures { result ≡ taken_of self.now.given }
    {
        if self.has_given {
            taken_at(self.given)
        } else {
            None
        }
    }

    /// Whether the event given last is an instruction that took and sent nothing. False where the last
    /// `next` gave no event or none was asked for yet.
    #[inline(always)]
    pub fn is_plain(&self) -> bool
        ensures { result ≡ is_plain self.now.given }
    {
        self.has_given && is_plain_at(self.given)
    }

    /// Message i of those that the event given last sent, with its receiver. None exactly where i is at
    /// or past their number, or where the last `next` gave no event or none was asked for yet.
    #[inline(always)]
    pub fn sent(&self, i: u32) -> Option<(NodeNo, Msg)>
        ensures sent { option_map (λ send. (send.0.0, send.1)) result ≡ slice_get (sent_of self.now.given) i }
        ensures few { IfSome result (λ send. i < 2 ^ 16) }
    {
        if !self.has_given {
            return None;
        }
        if i >= u32::from(count_at(self.given)) {
            return None;
        }
        let rest = skip(sends_of(self.given), i as u16);
        let stamp = entry_at(self.node, self.given).stamp;
        let (to, msg) = sent_at(self.node, stamp, rest);
        Some((NodeNo(to), msg))
    }
}
