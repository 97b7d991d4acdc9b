ghost use Rattle.std.specs.Prelude.{◌≡◌, ◌≤◌, OnOk};
ghost use Rattle.sparc_asm.specs.Names.{value_in};
ghost use Rattle.sparc_place.specs.Places.{nothing_laid, value_at, is_defined, label_again, labelled, here_of};
ghost use Rattle.sparc_place.specs.Plans.{layout_of, with_started, stepped, placed};

use crate::cursors::{Cursor, Position};
use crate::marks::Marks;
use crate::sizes::Sizes;
use alw_num::NoMemory;
use sparc_asm::{Expression, Name, Names, Sum, Value, value_of};
use std::alloc::Global;

/// What the lines so far have laid down.
#[derive(Drop)]
pub struct Plan<'a> {
    pub(crate) sizes: Sizes,
    pub(crate) begun: bool,
    pub(crate) names: Names<'a>,
    pub(crate) cursor: Cursor,
    pub(crate) written: Marks,
    pub(crate) started: Marks,
    pub(crate) always: Marks,
}

/// What a statement without a fault lays down.
#[derive(Drop)]
pub enum Step<'a> {
    /// A size: the sizes are these from then on.
    Sized(Sizes),
    /// The next line stands here.
    Moved(Cursor),
    /// The same, where the bytes up to there are written.
    Wrote(Cursor),
    /// A name stands for a value.
    Defined(Name<'a>, Value),
    /// A context starts.
    Started { node: u16, slot: u8 },
    /// A line is Trap-Always.
    Always(u32),
}

impl<'a> Plan<'a> {
    /// Nothing is laid down.
    pub fn empty(alloc: Global) -> Plan<'a>
        ensures { layout_of result ≡ nothing_laid }
    {
        Plan {
            sizes: Sizes::NONE_GIVEN,
            begun: false,
            names: Names::empty(alloc),
            cursor: Cursor::START,
            written: Marks::empty(alloc),
            started: Marks::empty(alloc),
            always: Marks::empty(alloc),
        }
    }

    /// The sizes that are given.
    pub fn sizes(&self) -> Sizes
        ensures { result ≡ self.now.sizes }
    {
        self.sizes
    }

    /// The names that are defined.
    pub fn names(&self) -> &Names<'a>
        ensures { result.now ≡ self.now.names }
    {
        &self.names
    }

    /// The number of code words.
    pub fn code(&self) -> u32
        ensures count { result ≡ self.now.cursor.code }
        ensures range { result ≤ 65536 }
    {
        self.cursor.code
    }

    /// Whether a line is Trap-Always.
    pub fn is_always(&self, line: u32) -> bool
        ensures { result ≡ (layout_of self.now).always line }
    {
        self.always.has(line as usize)
    }

    /// The value of an expression in the next line. None exactly where one of its names is defined on no earlier line.
    pub(crate) fn value(&self, expression: &Expression) -> Option<Sum>
        ensures { result ≡ value_at (layout_of self.now) expression.now }
    {
        value_of(&self.names, self.cursor.here(), expression)
    }

    // Whether a name is defined.
    pub(crate) fn is_defined(&self, name: &Name) -> bool
        ensures { result ≡ is_defined (layout_of self.now) name.now }
    {
        self.names.get(name).is_some()
    }

    // Whether a label is defined already.
    pub(crate) fn label_again(&self, label: &Option<Name>) -> bool
        ensures { result ≡ label_again (layout_of self.now) label.now }
    {
        match label {
            Some(name) => self.is_defined(name),
            None => false,
        }
    }

    // Gives a label the address of its line.
    pub(crate) fn define_label(&mut self, label: &Option<Name<'a>>) -> Result<(), NoMemory>
        ensures { OnOk result (layout_of self.new ≡ labelled label.now (layout_of self.old)) }
    {
        if let Some(name) = label {
            let value = Value {
                plus: self.cursor.here(),
                minus: 0,
            };
            self.names.define(Name::of(name.bytes()), value)?;
            self.begun = true;
        }
        Ok(())
    }

    // A context starts.
    fn start(&mut self, node: u16, slot: u8) -> Result<(), NoMemory>
        ensures { OnOk result (layout_of self.new ≡ with_started node slot (layout_of self.old)) }
    {
        self.started.mark_context(node, slot)?;
        self.begun = true;
        Ok(())
    }

    // Takes a step.
    pub(crate) fn take(&mut self, step: Step<'a>) -> Result<(), NoMemory>
        ensures { OnOk result (layout_of self.new ≡ stepped step.entry (layout_of self.old)) }
    {
        match step {
            Step::Sized(sizes) => self.sizes = sizes,
            Step::Moved(cursor) => {
                self.cursor = cursor;
                self.begun = true;
            }
            Step::Wrote(cursor) => {
                self.written
                    .mark(self.cursor.shared as usize, cursor.shared as usize)?;
                self.cursor = cursor;
                self.begun = true;
            }
            Step::Defined(name, value) => {
                self.names.define(name, value)?;
                self.begun = true;
            }
            Step::Started { node, slot } => self.start(node, slot)?,
            Step::Always(line) => {
                self.always.mark(line as usize, line as usize + 1)?;
                self.begun = true;
            }
        }
        Ok(())
    }

    // Where a line stands that starts no context.
    pub(crate) fn place(&self, node: u16, slot: u8) -> Position
        ensures { result ≡ record { here = here_of (layout_of self.now); in_data = self.now.cursor.in_data; node = node; slot = slot } }
    {
        Position {
            here: self.cursor.here(),
            in_data: self.cursor.in_data,
            node,
            slot,
        }
    }

    // Where the statement of a step stands.
    pub(crate) fn placed(&self, step: &Step) -> Position
        ensures { result ≡ placed (layout_of self.now) step.now }
    {
        match step {
            Step::Started { node, slot } => self.place(*node, *slot),
            _ => self.place(0, 0),
        }
    }
}
