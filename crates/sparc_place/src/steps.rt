ghost use Rattle.std.specs.Prelude.{◌≡◌, ◌≤◌, true};
ghost use Rattle.sparc_asm.specs.declared.statements.Statement.TheVariants.{Mesh, Contexts, Lines, Text, Shared, Data, Skip, Align, Equ, Start, Always};
ghost use Rattle.sparc_place.specs.Places.{data_end, is_label, start_again, always_again};
ghost use Rattle.sparc_place.specs.Plans.{layout_of, IsCodeStep, IsStep};

use crate::cursors::Cursor;
use crate::numbers::{byte_count, is_aligned, is_index, is_size, moved_on, rounded_up};
use crate::plans::{Plan, Step};
use crate::sizes::Sizes;
use alw_num::{LINE_BYTES, MOST_SIDE, Sequence, Width};
use sparc_asm::{Expression, Fault, Name, Statement, Sum, Value};

// A name is a line's label.
fn is_label(label: &Option<Name>, name: &Name) -> bool
    ensures { result ≡ is_label label.now name.now }
{
    match label {
        Some(label) => label == name,
        None => false,
    }
}

impl<'a> Plan<'a> {
    // The end of shared data.
    fn data_end(&self) -> u32
        ensures end { result ≡ data_end (layout_of self.now) }
        ensures range { result ≤ 16777216 }
    {
        LINE_BYTES * self.sizes.lines()
    }

    // `.mesh`.
    fn mesh_step(
        &self,
        label: &Option<Name>,
        width: &Expression,
        height: &Expression,
    ) -> Result<Step<'static>, Fault>
        ensures { IsStep (layout_of self.now) label.now (Mesh width.now height.now) result }
    {
        let (Some(width), Some(height)) = (self.value(width), self.value(height)) else {
            return Err(Fault::UnknownName);
        };
        if label.is_some() || self.begun || self.sizes.width.is_some() {
            return Err(Fault::Redefined);
        }
        let most = u64::from(MOST_SIDE);
        if !is_size(most, &width) || !is_size(most, &height) {
            return Err(Fault::Range);
        }
        Ok(Step::Sized(Sizes {
            width: Some(width.above() as u8),
            height: Some(height.above() as u8),
            contexts: self.sizes.contexts,
            per_node: self.sizes.per_node,
        }))
    }

    // `.contexts`.
    fn contexts_step(
        &self,
        label: &Option<Name>,
        count: &Expression,
    ) -> Result<Step<'static>, Fault>
        ensures { IsStep (layout_of self.now) label.now (Contexts count.now) result }
    {
        let Some(count) = self.value(count) else {
            return Err(Fault::UnknownName);
        };
        if label.is_some() || self.begun || self.sizes.contexts.is_some() {
            return Err(Fault::Redefined);
        }
        if !is_size(4, &count) {
            return Err(Fault::Range);
        }
        Ok(Step::Sized(Sizes {
            width: self.sizes.width,
            height: self.sizes.height,
            contexts: Some(count.above() as u8),
            per_node: self.sizes.per_node,
        }))
    }

    // `.lines`.
    fn lines_step(&self, label: &Option<Name>, count: &Expression) -> Result<Step<'static>, Fault>
        ensures { IsStep (layout_of self.now) label.now (Lines count.now) result }
    {
        let Some(count) = self.value(count) else {
            return Err(Fault::UnknownName);
        };
        if label.is_some() || self.begun || self.sizes.per_node.is_some() {
            return Err(Fault::Redefined);
        }
        if !is_size(4096, &count) {
            return Err(Fault::Range);
        }
        Ok(Step::Sized(Sizes {
            width: self.sizes.width,
            height: self.sizes.height,
            contexts: self.sizes.contexts,
            per_node: Some(count.above() as u16),
        }))
    }

    // `.text`.
    fn text_step(&self, label: &Option<Name>) -> Result<Step<'static>, Fault>
        ensures { IsStep (layout_of self.now) label.now Text result }
    {
        if self.label_again(label) {
            return Err(Fault::Redefined);
        }
        Ok(Step::Moved(Cursor {
            in_data: false,
            code: self.cursor.code,
            shared: self.cursor.shared,
        }))
    }

    // `.shared`.
    fn shared_step(&self, label: &Option<Name>, offset: &Expression) -> Result<Step<'static>, Fault>
        ensures { IsStep (layout_of self.now) label.now (Shared offset.now) result }
    {
        let Some(offset) = self.value(offset) else {
            return Err(Fault::UnknownName);
        };
        if self.label_again(label) {
            return Err(Fault::Redefined);
        }
        if !offset.is_between(0, u64::from(self.data_end())) {
            return Err(Fault::Range);
        }
        Ok(Step::Moved(Cursor {
            in_data: true,
            code: self.cursor.code,
            shared: offset.above() as u32,
        }))
    }

    // Words of code: of an instruction, or of `.word`.
    fn code_step(&self, label: &Option<Name>, count: u32) -> Result<Step<'static>, Fault>
        ensures { IsCodeStep (layout_of self.now) label.now count result }
    {
        if self.label_again(label) {
            return Err(Fault::Redefined);
        }
        if self.cursor.in_data || u64::from(self.cursor.code) + u64::from(count) > 65536 {
            return Err(Fault::Range);
        }
        Ok(Step::Moved(Cursor {
            in_data: false,
            code: self.cursor.code + count,
            shared: self.cursor.shared,
        }))
    }

    // `.word`, `.half` and `.byte` in shared data.
    fn bytes_step(
        &self,
        label: &Option<Name>,
        width: Width,
        values: &Sequence<Expression>,
    ) -> Result<Step<'static>, Fault>
        requires { self.now.cursor.in_data ≡ true }
        ensures { IsStep (layout_of self.now) label.now (Data width values.now) result }
    {
        if self.label_again(label) {
            return Err(Fault::Redefined);
        }
        let count = byte_count(width, values.len());
        if u64::from(self.cursor.shared) + count > u64::from(self.data_end()) {
            return Err(Fault::Range);
        }
        if !is_aligned(width, self.cursor.shared) {
            return Err(Fault::Unaligned);
        }
        if self.written.has_any(self.cursor.shared, count as u32) {
            return Err(Fault::Overlap);
        }
        Ok(Step::Wrote(Cursor {
            in_data: true,
            code: self.cursor.code,
            shared: self.cursor.shared + count as u32,
        }))
    }

    // `.word`, `.half` and `.byte`.
    fn data_step(
        &self,
        label: &Option<Name>,
        width: Width,
        values: &Sequence<Expression>,
    ) -> Result<Step<'static>, Fault>
        ensures { IsStep (layout_of self.now) label.now (Data width values.now) result }
    {
        if self.cursor.in_data {
            return self.bytes_step(label, width, values);
        }
        match width {
            Width::Word => self.code_step(label, values.len()),
            _ => Err(if self.label_again(label) {
                Fault::Redefined
            } else {
                Fault::Range
            }),
        }
    }

    // `.skip`.
    fn skip_step(&self, label: &Option<Name>, count: &Expression) -> Result<Step<'static>, Fault>
        ensures { IsStep (layout_of self.now) label.now (Skip count.now) result }
    {
        let Some(count) = self.value(count) else {
            return Err(Fault::UnknownName);
        };
        if self.label_again(label) {
            return Err(Fault::Redefined);
        }
        if !self.cursor.in_data {
            return Err(Fault::Range);
        }
        match moved_on(self.cursor.shared, &count, self.data_end()) {
            Some(shared) => Ok(Step::Moved(Cursor {
                in_data: true,
                code: self.cursor.code,
                shared,
            })),
            None => Err(Fault::Range),
        }
    }

    // `.align`.
    fn align_step(&self, label: &Option<Name>, unit: &Expression) -> Result<Step<'static>, Fault>
        ensures { IsStep (layout_of self.now) label.now (Align unit.now) result }
    {
        let Some(unit) = self.value(unit) else {
            return Err(Fault::UnknownName);
        };
        if self.label_again(label) {
            return Err(Fault::Redefined);
        }
        if !self.cursor.in_data {
            return Err(Fault::Range);
        }
        match rounded_up(self.cursor.shared, &unit) {
            Some(shared) => Ok(Step::Moved(Cursor {
                in_data: true,
                code: self.cursor.code,
                shared,
            })),
            None => Err(Fault::Range),
        }
    }

    // `.equ`.
    fn equ_step(
        &self,
        label: &Option<Name>,
        name: &Name<'a>,
        value: &Expression,
    ) -> Result<Step<'a>, Fault>
        ensures { IsStep (layout_of self.now) label.now (Equ name.now value.now) result }
    {
        let Some(value) = self.value(value) else {
            return Err(Fault::UnknownName);
        };
        if self.label_again(label) || is_label(label, name) || self.is_defined(name) {
            return Err(Fault::Redefined);
        }
        if !value.is_between(0x8000_0000, 0xffff_ffff) {
            return Err(Fault::Range);
        }
        let value = Value {
            plus: value.above() as u32,
            minus: value.below() as u32,
        };
        Ok(Step::Defined(Name::of(name.bytes()), value))
    }

    // The context has a start.
    fn start_again(&self, node: &Sum, slot: &Sum) -> bool
        ensures { result ≡ start_again (layout_of self.now) node.now slot.now }
    {
        node.below() == 0
            && slot.below() == 0
            && node.above() < 65536
            && slot.above() < 256
            && self
                .started
                .has(256 * node.above() as usize + slot.above() as usize)
    }

    // `.start`.
    fn start_step(
        &self,
        label: &Option<Name>,
        node: &Expression,
        slot: &Expression,
        address: &Expression,
    ) -> Result<Step<'static>, Fault>
        ensures { IsStep (layout_of self.now) label.now (Start node.now slot.now address.now) result }
    {
        let (Some(node), Some(slot)) = (self.value(node), self.value(slot)) else {
            return Err(Fault::UnknownName);
        };
        if self.label_again(label) || self.start_again(&node, &slot) {
            return Err(Fault::Redefined);
        }
        let nodes = u64::from(self.sizes.nodes());
        let slots = u64::from(self.sizes.slots());
        if !is_index(nodes, &node) || !is_index(slots, &slot) {
            return Err(Fault::Range);
        }
        Ok(Step::Started {
            node: node.above() as u16,
            slot: slot.above() as u8,
        })
    }

    // The line is Trap-Always already.
    fn always_again(&self, line: &Sum) -> bool
        ensures { result ≡ always_again (layout_of self.now) line.now }
    {
        line.below() == 0 && self.always.has(line.above() as usize)
    }

    // `.always`.
    fn always_step(&self, label: &Option<Name>, line: &Expression) -> Result<Step<'static>, Fault>
        ensures { IsStep (layout_of self.now) label.now (Always line.now) result }
    {
        let Some(line) = self.value(line) else {
            return Err(Fault::UnknownName);
        };
        if self.label_again(label) || self.always_again(&line) {
            return Err(Fault::Redefined);
        }
        if !is_index(u64::from(self.sizes.lines()), &line) {
            return Err(Fault::Range);
        }
        Ok(Step::Always(line.above() as u32))
    }

    /// What a statement lays down, or its fault.
    pub(crate) fn step(
        &self,
        label: &Option<Name>,
        statement: &Statement<'a>,
    ) -> Result<Step<'a>, Fault>
        ensures { IsStep (layout_of self.now) label.now statement.now result }
    {
        match statement {
            Statement::Mesh { width, height } => self.mesh_step(label, width, height),
            Statement::Contexts { count } => self.contexts_step(label, count),
            Statement::Lines { count } => self.lines_step(label, count),
            Statement::Text => self.text_step(label),
            Statement::Shared { offset } => self.shared_step(label, offset),
            Statement::Data { width, values } => self.data_step(label, *width, values),
            Statement::Skip { count } => self.skip_step(label, count),
            Statement::Align { unit } => self.align_step(label, unit),
            Statement::Equ { name, value } => self.equ_step(label, name, value),
            Statement::Start {
                node,
                slot,
                address,
            } => self.start_step(label, node, slot, address),
            Statement::Always { line } => self.always_step(label, line),
            Statement::Set { value: _, rd: _ } => self.code_step(label, 2),
            _ => self.code_step(label, 1),
        }
    }
}
