ghost use Rattle.std.specs.Prelude.{◌≡◌, ◌↔◌, ◌≤◌, ◌==◌, None, is_some};
ghost use Rattle.alw_num.specs.Maps.{passes};
ghost use Rattle.alw_num.specs.Weights.{digit};
ghost use Rattle.sparc_table.specs.Turns.{need_of, turn_of};
ghost use Rattle.sparc_exec.specs.Runs.{seen, IsRunWith, CopyIsMissing};
ghost use Rattle.alw_num.specs.declared.addresses.LineNo.{LineNo};
ghost use Rattle.alw_num.specs.declared.states.Mode.{Mode};
ghost use Rattle.alw_msg.specs.Statuses.{is_ready, is_halted, waits_on};
ghost use Rattle.alw_model.specs.Contexts.{woken};
ghost use Rattle.alw_ctx.specs.Residents.{slot_of, left_by};

use alw_msg::Status;
use alw_num::LineNo;
use sparc_exec::{Outcome, Port, Program};
use sparc_table::Regs;

/// The context in a slot: its registers, what it does, and the line that it has a hold on.
#[derive(Clone, Copy)]
pub struct Resident {
    pub regs: Regs,
    pub status: Status,
    pub hold: Option<LineNo>,
}

impl Resident {
    /// The context can run.
    pub fn is_ready(&self) -> bool
        ensures { result ≡ is_ready self.now.status }
    {
        matches!(self.status, Status::Ready)
    }

    /// The context has halted.
    pub fn has_halted(&self) -> bool
        ensures { result ≡ is_halted self.now.status }
    {
        matches!(self.status, Status::Halted)
    }

    /// A transaction on a line has ended: the context becomes Ready, where it waits on that line.
    pub fn wake(&mut self, line: LineNo)
        ensures { slot_of self.new ≡ woken line.0 (slot_of self.old) }
    {
        if self.waits_on(line) {
            self.status = Status::Ready;
        }
    }

    /// The context has a hold on a line.
    pub fn holds_on(&self, line: LineNo) -> bool
        ensures { result ≡ passes (λ held. held == line.0) (slot_of self.now).hold }
    {
        match self.hold {
            Some(held) => held == line,
            None => false,
        }
    }

    /// The number of holds that the context has: one or none.
    pub fn holds(&self) -> u8
        ensures count { result ≡ digit (is_some (slot_of self.now).hold) }
        ensures most { result ≤ 1 }
    {
        if self.hold.is_some() { 1 } else { 0 }
    }

    /// A turn of the context over a port. Its hold ends, and where it misses it waits on the line.
    pub fn turn<P: Port>(&mut self, code: &Program, port: &mut P) -> Outcome
        ensures run { IsRunWith (need_of code.now self.old.regs (P.lines port.old)) (turn_of code.now self.old.regs (P.lines port.old)) (seen self.old.regs (P.copy port.old) (P.calls port.old)) (seen self.new.regs (P.copy port.new) (P.calls port.new)) result }
        ensures missed { (line : LineNo) → (mode : Mode) → (result ≡ Outcome.Miss line mode) ↔ CopyIsMissing (need_of code.now self.old.regs (P.lines port.old)) (P.copy port.old) line mode }
        ensures left { slot_of self.new ≡ record { regs = self.new.regs; status = left_by self.new.regs result; hold = None } }
        ensures sizes { (P.lines port.new ≡ P.lines port.old) × (P.places port.new ≡ P.places port.old) }
    {
        let outcome = code.turn(&mut self.regs, port);
        if matches!(outcome, Outcome::Done) {
            self.status = Status::Ready;
            self.hold = None;
            return Outcome::Done;
        }
        self.status = left_by(&self.regs, outcome);
        self.hold = None;
        outcome
    }

    // The context waits on a line.
    fn waits_on(&self, line: LineNo) -> bool
        ensures { result ≡ waits_on line.0 self.now.status }
    {
        match self.status {
            Status::Waiting { line: waited } => waited == line,
            _ => false,
        }
    }
}

// The status of a context after a turn.
fn left_by(regs: &Regs, outcome: Outcome) -> Status
    ensures { result ≡ left_by regs.now outcome }
{
    match outcome {
        Outcome::Done | Outcome::Out { .. } => Status::Ready,
        Outcome::Miss { line, .. } => Status::Waiting { line },
        Outcome::Halt => Status::Halted,
        Outcome::Trap { tt } => Status::Trapped { pc: regs.pc, tt },
    }
}
