ghost use Rattle.std.specs.Prelude.{◌≡◌, ◌↔◌, ◌<◌, ◌≤◌, ◌*◌, ◌%◌, length, is_some};
ghost use Rattle.std.specs.Option.{option_map};
ghost use Rattle.alw_num.specs.Weights.{digit, weigh};
ghost use Rattle.alw_num.specs.declared.addresses.LineNo.{LineNo};
ghost use Rattle.alw_num.specs.declared.states.Mode.{Mode};
ghost use Rattle.sparc_table.specs.Turns.{need_of, turn_of};
ghost use Rattle.sparc_exec.specs.Runs.{seen, IsRunWith, CopyIsMissing};
ghost use Rattle.alw_image.specs.Images.{node_count};
ghost use Rattle.alw_model.specs.Contexts.{slots_start, slot_at, running, ran, wake, give_hold, is_held, all_halted};
ghost use Rattle.alw_ctx.specs.Residents.{number_of, slots_of, left_by};

use crate::residents::Resident;
use crate::starts::residents;
use alw_image::Image;
use alw_msg::Status;
use alw_num::{LineNo, NodeNo};
use sparc_exec::{Outcome, Port, Program};
use sparc_table::Regs;
use std::marker::Model;

/// The contexts of a node, at most four, and the current slot.
///
/// An instruction event runs the first Ready slot in the order current, current + 1 and so on modulo
/// their number. A hold keeps a line that has arrived for a slot in the cache until the slot has run.
#[derive(Drop)]
pub struct Contexts {
    count: u8,
    current: u8,
    holds: u8,
    places: [Resident; 4],
}

impl Model for Contexts {
    ghost use Rattle.std.specs.Prelude.{◌≡◌, ◌≤◌, ◌<◌, length};
    ghost use Rattle.alw_ctx.specs.Residents.{NodeContexts, slots_of, holds_of};

    ghost Value = { NodeContexts };

    ghost view = { λ c. record { slots = slots_of c.count c.places; current = c.current } };

    ghost invariant = { λ c. (c.current < c.count) × (c.count ≤ 4) × (length c.places ≡ 4) × (c.holds ≡ holds_of (slots_of c.count c.places)) };
}

impl Contexts {
    /// The contexts of a node at the start of an image. One without a start is halted.
    pub fn start(image: &Image, node: NodeNo) -> Contexts
        requires { node.0 < node_count image.now }
        ensures { result ≡ record { slots = slots_start image.now node.0; current = 0 } }
    {
        let _allowed = image.code(); // for its clause
        Contexts {
            places: residents(image, node),
            count: image.contexts(),
            current: 0,
            holds: 0,
        }
    }

    /// The number of slots.
    pub fn count(&self) -> u8
        ensures count { result ≡ length self.now.slots }
        ensures most { result ≤ 4 }
    {
        self.count
    }

    /// The slot that runs. None exactly where no slot is Ready.
    pub fn current(&self) -> Option<u8>
        ensures { result ≡ running self.now.slots self.now.current }
    {
        if self.places[self.current as usize].is_ready() {
            return Some(self.current);
        }
        for k in 1..self.count {
            let slot = wrapped(self.current + k, self.count);
            if self.places[slot as usize].is_ready() {
                return Some(slot);
            }
        }
        None
    }

    /// The current slot: the one that ran last.
    pub fn last(&self) -> u8
        ensures slot { result ≡ self.now.current }
        ensures within { result < length self.now.slots }
    {
        self.current
    }

    /// What the context of a slot does.
    pub fn status(&self, slot: u8) -> Status
        requires { slot < length self.now.slots }
        ensures { result ≡ (slot_at self.now.slots slot).status }
    {
        self.places[slot as usize].status
    }

    /// The registers of a slot.
    pub fn regs(&self, slot: u8) -> Regs
        requires { slot < length self.now.slots }
        ensures { result ≡ (slot_at self.now.slots slot).regs }
    {
        self.places[slot as usize].regs
    }

    /// The line that a slot has a hold on. None exactly where it has none.
    pub fn held(&self, slot: u8) -> Option<LineNo>
        requires { slot < length self.now.slots }
        ensures { option_map number_of result ≡ (slot_at self.now.slots slot).hold }
    {
        self.places[slot as usize].hold
    }

    /// A line is held: it is the hold of a slot.
    pub fn is_held(&self, line: LineNo) -> bool
        ensures { result ≡ is_held self.now.slots line.0 }
    {
        for slot in 0..self.count {
            if self.places[slot as usize].holds_on(line) {
                return true;
            }
        }
        false
    }

    /// The number of slots with a hold.
    pub fn holds(&self) -> u32
        ensures { result ≡ weigh (λ slot. digit (is_some slot.hold)) self.now.slots }
    {
        u32::from(self.holds)
    }

    /// All contexts have halted.
    pub fn have_halted(&self) -> bool
        ensures { result ≡ all_halted self.now.slots }
    {
        for slot in 0..self.count {
            if !self.places[slot as usize].has_halted() {
                return false;
            }
        }
        true
    }

    /// A turn of a slot over a port, on the slot's registers where they stand. The slot becomes the
    /// current one, its hold ends, and where it misses it waits on the line.
    pub fn turn<P: Port>(&mut self, slot: u8, code: &Program, port: &mut P) -> Outcome
        requires { slot < length self.old.slots }
        ensures run { IsRunWith (need_of code.now (slot_at self.old.slots slot).regs (P.lines port.old)) (turn_of code.now (slot_at self.old.slots slot).regs (P.lines port.old))
            (seen (slot_at self.old.slots slot).regs (P.copy port.old) (P.calls port.old)) (seen (slot_at self.new.slots slot).regs (P.copy port.new) (P.calls port.new)) result }
        ensures missed { (line : LineNo) → (mode : Mode) → (result ≡ Outcome.Miss line mode) ↔ CopyIsMissing (need_of code.now (slot_at self.old.slots slot).regs (P.lines port.old)) (P.copy port.old) line mode }
        ensures contexts { self.new ≡ record { slots = ran self.old.slots slot (slot_at self.new.slots slot).regs (left_by (slot_at self.new.slots slot).regs result); current = slot } }
        ensures sizes { (P.lines port.new ≡ P.lines port.old) × (P.places port.new ≡ P.places port.old) }
    {
        self.current = slot;
        self.holds -= self.places[slot as usize].holds();
        let place = &mut self.places[slot as usize];
        place.turn(code, port)
    }

    /// A slot has run: it becomes the current one, with these registers and this status, and its hold
    /// ends.
    pub fn ran(&mut self, slot: u8, regs: Regs, status: Status)
        requires { slot < length self.old.slots }
        ensures { self.new ≡ record { slots = ran self.old.slots slot regs status; current = slot } }
    {
        self.holds -= self.places[slot as usize].holds();
        self.places[slot as usize] = Resident {
            regs,
            status,
            hold: None,
        };
        self.current = slot;
    }

    /// Gives a slot a hold on a line.
    pub fn hold(&mut self, slot: u8, line: LineNo)
        requires { slot < length self.old.slots }
        ensures { self.new ≡ record self.old { slots = give_hold line.0 slot self.old.slots } }
    {
        self.holds += 1 - self.places[slot as usize].holds();
        self.places[slot as usize].hold = Some(line);
    }

    /// Makes Ready exactly the slots that wait on a line.
    pub fn wake(&mut self, line: LineNo)
        ensures { self.new ≡ record self.old { slots = wake line.0 self.old.slots } }
    {
        wake(&mut self.places, self.count, line);
    }
}

// Wakes those of the first so many contexts that wait on a line.
fn wake(places: &mut [Resident; 4], count: u8, line: LineNo)
    requires places { length places.old ≡ 4 }
    requires count { count ≤ 4 }
    ensures places { length places.new ≡ 4 }
    ensures slots { slots_of count places.new ≡ wake line.0 (slots_of count places.old) }
{
    for slot in 0..count {
        places[slot as usize].wake(line);
    }
}

// A number modulo a count, where it is below twice the count.
fn wrapped(number: u8, count: u8) -> u8
    requires { number < 2 * count }
    ensures { result ≡ number % count }
{
    if number < count {
        number
    } else {
        number - count
    }
}
