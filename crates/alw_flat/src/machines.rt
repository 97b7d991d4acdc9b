ghost use Rattle.std.specs.Prelude.{◌≡◌, ◌≢◌, ◌<◌, map, IfOk, IsTrue};
ghost use Rattle.std.specs.List.{range_with_len};
ghost use Rattle.alw_num.specs.declared.addresses.LineNo.{LineNo};
ghost use Rattle.alw_num.specs.declared.states.Mode.{Mode};
ghost use Rattle.alw_image.specs.Images.{context_count, line_count};
ghost use Rattle.alw_msg.specs.Statuses.{is_ready};
ghost use Rattle.alw_model.specs.Contexts.{status_start};
ghost use Rattle.alw_model.specs.ProcessorSteps.{status_after};
ghost use Rattle.alw_model.specs.Flat.{flat_start, flat_turn, context_start, context_at, line_at};
ghost use Rattle.alw_flat.specs.Machines.{for_turns, word_of, IsSharedWord};
ghost use Rattle.alw_flat.specs.Contexts.{contexts_of};

use crate::memory::Memory;
use alw_image::Image;
use alw_msg::Status;
use alw_num::{LINE_BYTES, Line, LineNo, NoMemory, SHARED_BASE, Width, lane};
use sparc_exec::{Outcome, Program};
use sparc_table::Regs;
use std::alloc::Global;
use std::marker::Model;

/// A context: its registers, and whether it is Ready, Halted or Trapped.
#[derive(Clone, Copy, PartialEq, Eq)]
struct Context {
    regs: Regs,
    status: Status,
}

/// The flat machine (after Lamport 1979): all contexts of an image take turns on one memory, and no
/// turn misses.
#[derive(Drop)]
pub struct Flat {
    width: u8,
    height: u8,
    slots: u8,
    per_node: u16,
    code: Program,
    memory: Memory,
    contexts: Vec<Context>,
}

impl Model for Flat {
    ghost use Rattle.std.specs.Prelude.{[]};
    ghost use Rattle.alw_flat.specs.Machines.{FlatMachine, HasFlatSizes};
    ghost use Rattle.alw_flat.specs.Contexts.{machine_of};

    ghost Value = { FlatMachine };

    ghost view = { λ f. machine_of (record { width = f.width; height = f.height; contexts = f.slots; per_node = f.per_node; code = f.code; bodies = []; starts = []; always = [] }) f.memory f.contexts.items };

    ghost invariant = { λ f. HasFlatSizes (machine_of (record { width = f.width; height = f.height; contexts = f.slots; per_node = f.per_node; code = f.code; bodies = []; starts = []; always = [] }) f.memory f.contexts.items) };
}

impl Flat {
    /// The flat machine of an image at the start. It keeps a program of its own, and takes all the
    /// memory that it ever needs.
    pub fn start(alloc: Global, image: &Image) -> Result<Flat, NoMemory>
        ensures { IfOk result (λ f. f ≡ record { parts = for_turns image.now; flat = flat_start image.now }) }
    {
        let code = Program::of(image.code())?;
        let memory = Memory::start(alloc, image, image.lines())?;
        let contexts = contexts_at_start(alloc, image, image.all_contexts())?;
        Ok(Flat {
            width: image.width(),
            height: image.height(),
            slots: image.contexts(),
            per_node: image.per_node(),
            code,
            memory,
            contexts,
        })
    }

    /// A turn of a context that is Ready, on its registers where they stand: the instruction at its
    /// PC, on the one memory. It never misses.
    pub fn turn(&mut self, context: u32) -> Outcome
        requires { IsTrue (is_ready (context_at self.old.flat context).status) }
        ensures state { self.new ≡ record self.old { flat = (flat_turn self.old.parts self.old.flat context).0 } }
        ensures outcome { result ≡ (flat_turn self.old.parts self.old.flat context).1 }
        ensures hits { (line : LineNo) → (mode : Mode) → result ≢ Outcome.Miss line mode }
    {
        let here = &mut self.contexts[context as usize];
        let outcome = self.code.turn(&mut here.regs, &mut self.memory);
        here.status = left_by(&here.regs, outcome);
        outcome
    }

    /// The status of a context: Ready, Halted or Trapped.
    pub fn status(&self, context: u32) -> Status
        requires { context < context_count self.now.parts }
        ensures { result ≡ (context_at self.now.flat context).status }
    {
        self.contexts[context as usize].status
    }

    /// The registers of a context.
    pub fn regs(&self, context: u32) -> Regs
        requires { context < context_count self.now.parts }
        ensures { result ≡ (context_at self.now.flat context).regs }
    {
        self.contexts[context as usize].regs
    }

    /// The value of a line of shared data.
    pub fn line(&self, line: LineNo) -> Line
        requires { line.0 < line_count self.now.parts }
        ensures { result ≡ line_at self.now.flat line.0 }
    {
        self.memory.value(line)
    }

    /// The word at an address of shared data that is a multiple of 4.
    pub fn word(&self, addr: u32) -> u32
        requires { IsSharedWord self.now.parts addr }
        ensures { result ≡ word_of self.now.flat addr }
    {
        let line = self.memory.value(LineNo((addr - SHARED_BASE) / LINE_BYTES));
        lane(&line, addr % LINE_BYTES, Width::Word)
    }
}

// The status of a context after a turn.
fn left_by(regs: &Regs, outcome: Outcome) -> Status
    ensures { result ≡ status_after regs.now outcome }
{
    match outcome {
        Outcome::Halt => Status::Halted,
        Outcome::Trap { tt } => Status::Trapped { pc: regs.pc, tt },
        _ => Status::Ready,
    }
}

// The status of a context at the start: Halted where the image has no start for it.
fn status_of(start: Option<u32>) -> Status
    ensures { result ≡ status_start start }
{
    if start.is_some() {
        Status::Ready
    } else {
        Status::Halted
    }
}

// All contexts of an image, at the start.
fn contexts_at_start(alloc: Global, image: &Image, count: u32) -> Result<Vec<Context>, NoMemory>
    requires { count ≡ context_count image.now }
    ensures { IfOk result (λ contexts. contexts_of contexts.items ≡ map (context_start image.now) (range_with_len 0 count)) }
{
    let mut contexts = Vec::with_capacity(alloc, count as usize)?;
    for context in 0..count {
        let start = image.start(context);
        let status = status_of(start);
        let regs = Regs::start(start.unwrap_or(0), context, count);
        contexts.push_reserved(Context { regs, status });
    }
    Ok(contexts)
}
