ghost use Rattle.std.specs.Prelude.{◌≡◌, ◌<◌, ◌+◌, ◌^◌};
ghost use Rattle.sparc_place.specs.Places.{nothing_laid, fault_at, places, places_of};
ghost use Rattle.sparc_place.specs.Plans.{layout_of, LineIsLaid, AnswersPlaces};

use crate::cursors::{Places, Position};
use crate::plans::Plan;
use alw_num::NoMemory;
use sparc_asm::{AsmErr, Fault, Line, Lines};
use std::alloc::Global;

/// What all lines of a source have laid down, and where each of them stands.
#[derive(Drop)]
pub struct Laid<'a> {
    pub plan: Plan<'a>,
    pub places: Places,
}

/// A fault with the number of its line.
pub fn fault_at(fault: Fault, line: u32) -> AsmErr
    ensures { result ≡ fault_at fault line }
{
    match fault {
        Fault::UnknownName => AsmErr::UnknownName { line },
        Fault::Redefined => AsmErr::Redefined { line },
        Fault::Range => AsmErr::Range { line },
        Fault::Unaligned => AsmErr::Unaligned { line },
        Fault::Overlap => AsmErr::Overlap { line },
    }
}

impl<'a> Plan<'a> {
    // Lays down a label.
    fn lay_label(&mut self, line: &Line<'a>, number: u32) -> Result<Position, AsmErr>
        requires { line.now.statement ≡ None }
        ensures { LineIsLaid (layout_of self.old) (layout_of self.new) line.now number result }
    {
        if self.label_again(&line.label) {
            return Err(AsmErr::Redefined { line: number });
        }
        let place = self.place(0, 0);
        match self.define_label(&line.label) {
            Ok(()) => Ok(place),
            Err(NoMemory) => Err(AsmErr::NoMemory),
        }
    }

    // Lays down a line with a number: where it stands, or its fault.
    fn lay(&mut self, line: &Line<'a>, number: u32) -> Result<Position, AsmErr>
        ensures { LineIsLaid (layout_of self.old) (layout_of self.new) line.now number result }
    {
        let Some(statement) = &line.statement else {
            return self.lay_label(line, number);
        };
        let step = match self.step(&line.label, statement) {
            Ok(step) => step,
            Err(fault) => return Err(fault_at(fault, number)),
        };
        let place = self.placed(&step);
        match self.define_label(&line.label) {
            Ok(()) => match self.take(step) {
                Ok(()) => Ok(place),
                Err(NoMemory) => Err(AsmErr::NoMemory),
            },
            Err(NoMemory) => Err(AsmErr::NoMemory),
        }
    }
}

/// Lays down the lines of a source: the second pass. The fault is that of the first line that has one.
pub fn lay_out<'a>(alloc: Global, lines: &Lines<'a>) -> Result<Laid<'a>, AsmErr>
    ensures { AnswersPlaces (places 1 nothing_laid lines.now) (places_of nothing_laid lines.now) result }
{
    let mut plan = Plan::empty(alloc);
    let mut all = Places::empty(alloc);
    for i in 0..lines.len() {
        match plan.lay(lines.at_ref(i), i + 1) {
            Ok(place) => all.push(place)?,
            Err(e) => return Err(e),
        }
    }
    Ok(Laid { plan, places: all })
}
