ghost use Rattle.std.specs.Prelude.{◌≡◌, ◌<◌, ◌==◌, cond, length, false, None, Some, IfSome, IfNone};
ghost use Rattle.alw_num.specs.declared.states.Mode.TheVariants.{Write};
ghost use Rattle.alw_image.specs.Images.{line_count, context_count, zero_line};
ghost use Rattle.sparc_table.specs.Turns.{need_of, turn_of};
ghost use Rattle.sparc_table.specs.declared.outcomes.Need.{Need};
ghost use Rattle.alw_model.specs.ProcessorSteps.{status_after};
ghost use Rattle.alw_places.specs.Places.{traps, needs_copy};
ghost use Rattle.alw_places.specs.Effects.{effect_of, written, LeftOn, LeftAlone};

use alw_flat::Memory;
use alw_image::Image;
use alw_msg::Status;
use alw_num::{Line, LineNo, Mode};
use sparc_exec::{Outcome, Port};
use sparc_table::{Need, Regs};

// One line as a port: its copy grants both modes, and no other line has one.
#[derive(Clone, Copy, PartialEq, Eq)]
struct Window {
    lines: u32,
    line: LineNo,
    value: Line,
}

impl Port for Window {
    ghost copy = { λ w line. cond (line == w.line.0) (Some (Write, w.value)) None };

    ghost lines = { λ w. w.lines };

    ghost places = { λ _. 1 };

    ghost calls = { λ _. None };

    fn lines(&self) -> u32 {
        self.lines
    }

    fn grab(&mut self, line: LineNo, _mode: Mode) -> Option<Line> {
        if line.0 == self.line.0 {
            Some(self.value)
        } else {
            None
        }
    }

    fn put(&mut self, line: LineNo, value: Line) {
        if line.0 == self.line.0 {
            self.value = value;
        }
    }
}

/// What a turn leaves: registers, the line that it wrote, and its outcome.
#[derive(Clone, Copy, PartialEq, Eq)]
pub struct Left {
    pub regs: Regs,
    pub wrote: Option<(LineNo, Line)>,
    pub outcome: Outcome,
}

/// A turn of these registers on a memory.
pub fn run(image: &Image, regs: &Regs, memory: &Memory) -> Left
    requires { length memory.now ≡ line_count image.now }
    ensures effect { effect_of image.now memory.now regs.now ≡ record { memory = written memory.now result.wrote; regs = result.regs; outcome = result.outcome } }
    ensures line { IfSome result.wrote (λ wrote. wrote.0.0 < length memory.now) }
{
    match need(image, regs) {
        Some((line, mode)) => run_on(image, regs, line, mode, memory.value(line)),
        None => run_alone(image, regs),
    }
}

// A turn that needs a copy of a line, whose value this is.
fn run_on(image: &Image, regs: &Regs, line: LineNo, mode: Mode, value: Line) -> Left
    requires { need_of image.now.code regs.now (line_count image.now) ≡ Need.Copy line mode }
    ensures { LeftOn (turn_of image.now.code regs.now (line_count image.now) value) line mode result }
{
    let lines = lines_of(image);
    let mut window = Window { lines, line, value };
    let mut after = *regs;
    let outcome = sparc_exec::turn(image.code().words(), &mut after, &mut window);
    let wrote = match mode {
        Mode::Read => None,
        Mode::Write => Some((line, window.value)),
    };
    Left {
        regs: after,
        wrote,
        outcome,
    }
}

// A turn that needs no copy.
fn run_alone(image: &Image, regs: &Regs) -> Left
    requires { needs_copy (need_of image.now.code regs.now (line_count image.now)) ≡ false }
    ensures { LeftAlone (turn_of image.now.code regs.now (line_count image.now) zero_line) result }
{
    let lines = lines_of(image);
    let value = Line::ZERO;
    let mut window = Window {
        lines,
        line: LineNo(0),
        value,
    };
    let mut after = *regs;
    let outcome = sparc_exec::turn(image.code().words(), &mut after, &mut window);
    Left {
        regs: after,
        wrote: None,
        outcome,
    }
}

/// The copy of a line that a turn of these registers needs, if it needs one.
pub fn need(image: &Image, regs: &Regs) -> Option<(LineNo, Mode)>
    ensures some { IfSome result (λ need. need_of image.now.code regs.now (line_count image.now) ≡ Need.Copy need.0 need.1) }
    ensures none { IfNone result (needs_copy (need_of image.now.code regs.now (line_count image.now)) ≡ false) }
{
    match sparc_exec::need(image.code().words(), regs, lines_of(image)) {
        Need::Copy { line, mode } => Some((line, mode)),
        Need::Nothing => None,
        Need::Trap { .. } => None,
    }
}

/// The turn traps.
pub fn has_trapped(outcome: Outcome) -> bool
    ensures { result ≡ traps outcome }
{
    matches!(outcome, Outcome::Trap { .. })
}

/// The status of a context after a turn.
pub fn left_by(regs: &Regs, outcome: Outcome) -> Status
    ensures { result ≡ status_after regs.now outcome }
{
    match outcome {
        Outcome::Halt => Status::Halted,
        Outcome::Trap { tt } => Status::Trapped { pc: regs.pc, tt },
        _ => Status::Ready,
    }
}

/// The number of contexts of an image.
pub fn contexts_of(image: &Image) -> u32
    ensures { result ≡ context_count image.now }
{
    u32::from(image.width()) * u32::from(image.height()) * u32::from(image.contexts())
}

/// The number of lines of an image.
pub fn lines_of(image: &Image) -> u32
    ensures { result ≡ line_count image.now }
{
    u32::from(image.width()) * u32::from(image.height()) * u32::from(image.per_node())
}
