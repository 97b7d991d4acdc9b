use crate::names::Name;
use alw_num::{Sequence, Width};

/// A term of an expression.
#[derive(Drop)]
pub enum Term<'a> {
    Number(u32),
    Name(Name<'a>),
    /// The address of the statement's first byte.
    Here,
}

/// A term that is added, or taken away where `minus` is true.
#[derive(Drop)]
pub struct Signed<'a> {
    pub minus: bool,
    pub term: Term<'a>,
}

/// An expression: the sum of one or more terms.
pub type Expression<'a> = Sequence<Signed<'a>>;

/// A second operand: a register, a number, or the low ten bits of one.
#[derive(Drop)]
pub enum Source<'a> {
    Register(u8),
    Number(Expression<'a>),
    Low(Expression<'a>),
}

/// An address: the sum of a register and an operand.
#[derive(Drop)]
pub struct Address<'a> {
    pub base: u8,
    pub offset: Source<'a>,
}

/// A statement. The synthetic forms stand as the instructions that they are; `op3` and `cond` are
/// the fields of the instruction word.
#[derive(Drop)]
pub enum Statement<'a> {
    Arith {
        op3: u8,
        rs1: u8,
        operand: Source<'a>,
        rd: u8,
    },
    Shift {
        op3: u8,
        rs1: u8,
        operand: Source<'a>,
        rd: u8,
    },
    ReadY {
        rd: u8,
    },
    WriteY {
        rs1: u8,
        operand: Source<'a>,
    },
    Jmpl {
        address: Address<'a>,
        rd: u8,
    },
    Call {
        target: Expression<'a>,
    },
    Branch {
        annul: bool,
        cond: u8,
        target: Expression<'a>,
    },
    Trap {
        cond: u8,
        address: Address<'a>,
    },
    /// SETHI with the value of its field.
    Sethi {
        value: Expression<'a>,
        rd: u8,
    },
    /// SETHI with bits 31 to 10 of a value.
    SethiHigh {
        value: Expression<'a>,
        rd: u8,
    },
    Memory {
        op3: u8,
        address: Address<'a>,
        rd: u8,
    },
    /// SETHI and OR of a value, always two words.
    Set {
        value: Expression<'a>,
        rd: u8,
    },
    Mesh {
        width: Expression<'a>,
        height: Expression<'a>,
    },
    Contexts {
        count: Expression<'a>,
    },
    Lines {
        count: Expression<'a>,
    },
    Text,
    Shared {
        offset: Expression<'a>,
    },
    Data {
        width: Width,
        values: Sequence<Expression<'a>>,
    },
    Skip {
        count: Expression<'a>,
    },
    Align {
        unit: Expression<'a>,
    },
    Equ {
        name: Name<'a>,
        value: Expression<'a>,
    },
    Start {
        node: Expression<'a>,
        slot: Expression<'a>,
        address: Expression<'a>,
    },
    Always {
        line: Expression<'a>,
    },
}

/// A line of a source: a label, a statement, both or neither.
#[derive(Drop)]
pub struct Line<'a> {
    pub label: Option<Name<'a>>,
    pub statement: Option<Statement<'a>>,
}

/// The lines of a source, in order: line n of the source is member n - 1.
pub type Lines<'a> = Sequence<Line<'a>>;
