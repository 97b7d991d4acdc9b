ghost use Rattle.std.specs.Prelude.{◌≡◌, ◌<◌, ℕ, true, None, IfSome, IfNone};
ghost use Rattle.std.specs.Option.{option_map};
ghost use Rattle.alw_num.specs.Maps.{empty_map, value_at, with_value, without_value, passes};
ghost use Rattle.alw_proc.specs.Openings.{told_of, opener_of, is_of, opened_at, HasNoOpening, OpeningIsNotOf};

use alw_num::{LineNo, Mode};
use std::marker::Model;

/// A transaction that a slot has opened.
#[derive(Clone, Copy)]
pub struct Opening {
    pub line: LineNo,
    pub mode: Mode,
}

/// The open transactions of a node (ASPLOS 1991, section 2): at most one for each line, and at most
/// one by each slot. Contracts see the map from lines to transactions.
#[derive(Drop)]
pub struct Openings {
    slots: [Option<Opening>; 4],
}

impl Model for Openings {
    ghost use Rattle.std.specs.Prelude.{◌≡◌, length};
    ghost use Rattle.alw_model.specs.Caches.{Transactions};
    ghost use Rattle.alw_proc.specs.Openings.{map_from, OpeningsAreSingle};

    ghost Value = { Transactions };

    ghost view = { λ o. map_from 0 o.slots };

    ghost invariant = { λ o. (length o.slots ≡ 4) × OpeningsAreSingle o.slots };
}

impl Openings {
    /// No transaction is open.
    pub fn none() -> Openings
        ensures { result ≡ empty_map }
    {
        Openings { slots: [None; 4] }
    }

    /// The transaction on a line: the slot that opened it, and its mode.
    pub fn of(&self, line: LineNo) -> Option<(u8, Mode)>
        ensures { result ≡ option_map told_of (value_at self.now line.0) }
    {
        match find(&self.slots, line) {
            Some(slot) => {
                let opening = self.slots[slot as usize]?;
                Some((slot, opening.mode))
            }
            None => None,
        }
    }

    /// A slot opens a transaction on a line that has none.
    pub fn open(&mut self, slot: u8, line: LineNo, mode: Mode)
        requires slot { slot < 4 }
        requires line { value_at self.old line.0 ≡ None }
        requires free { (l : ℕ) → OpeningIsNotOf slot (value_at self.old l) }
        ensures { self.new ≡ with_value self.old line.0 (record { mode = mode; opener = slot }) }
    {
        self.slots[slot as usize] = Some(Opening { line, mode });
    }

    /// Ends the transaction on a line, and answers the slot that opened it. None exactly where there
    /// is none; then nothing changes.
    pub fn end(&mut self, line: LineNo) -> Option<u8>
        ensures opener { result ≡ option_map opener_of (value_at self.old line.0) }
        ensures all { self.new ≡ without_value self.old line.0 }
    {
        match find(&self.slots, line) {
            Some(slot) => {
                self.slots[slot as usize] = None;
                Some(slot)
            }
            None => None,
        }
    }
}

// The slot that has opened a transaction on a line.
fn find(slots: &[Option<Opening>; 4], line: LineNo) -> Option<u8>
    ensures found { IfSome result (λ slot. (slot < 4) × (passes (is_of line.0) (opened_at slots.now slot) ≡ true)) }
    ensures none { IfNone result (HasNoOpening slots.now line.0) }
{
    for slot in 0..4 {
        if is_of(slots[slot as usize], line) {
            return Some(slot);
        }
    }
    None
}

// What a slot has opened is on this line.
fn is_of(opened: Option<Opening>, line: LineNo) -> bool
    ensures { result ≡ passes (is_of line.0) opened }
{
    match opened {
        Some(opening) => opening.line == line,
        None => false,
    }
}
