ghost use Rattle.std.specs.Prelude.{◌≡◌, ◌<◌, ◌≤◌, ◌+◌, ◌*◌, ◌/◌, ◌%◌, ◌-◌, ◌^◌, Ok, Err, IfOk, IfSome, MatchResult};
ghost use Rattle.sparc_asm.specs.Names.{value_in};
ghost use Rattle.sparc_asm.specs.Values.{above, below};
ghost use Rattle.sparc_asm.specs.Encoding.{known, between, number_of, word_of, immediate, operand_of, target_of, aligned, ahead, call_distance, branch_distance, plain_operand, set_word, HasOperand, coded};
ghost use Rattle.sparc_table.specs.Table.{Fits};
ghost use Rattle.sparc_asm.specs.Words.{instr_word};

use crate::faults::Fault;
use crate::names::Names;
use crate::statements::{Expression, Source, Statement};
use crate::values::{Sum, value_of};
use sparc_table::{Instr, Operand};

/// The instructions that a statement stands for: a directive has none, `set` has two.
#[derive(Clone, Copy, PartialEq, Eq)]
pub enum Coded {
    Nothing,
    One(Instr),
    Two(Instr, Instr),
}

// The value of an expression that lies from `-least` to `most`.
fn number_of(
    names: &Names,
    here: u32,
    least: u64,
    most: u64,
    expression: &Expression,
) -> Result<Sum, Fault>
    ensures value { result ≡ number_of (value_in names.now) here least most expression.now }
    ensures range { IfOk result (λ value. (below value ≤ least) × (above value ≤ most)) }
{
    match value_of(names, here, expression) {
        Some(value) => {
            if value.is_between(least, most) {
                Ok(value)
            } else {
                Err(Fault::Range)
            }
        }
        None => Err(Fault::UnknownName),
    }
}

// The word of an argument of `%hi` or `%lo`.
fn word_of(names: &Names, here: u32, expression: &Expression) -> Result<u32, Fault>
    ensures value { result ≡ word_of (value_in names.now) here expression.now }
{
    let value = number_of(names, here, 1 << 31, (1 << 32) - 1, expression)?;
    Ok(value.modulo(1 << 32) as u32)
}

// A number within a field.
fn immediate(most: u64, bits: u16) -> Result<Operand, Fault>
    ensures { result ≡ immediate most bits }
{
    if u64::from(bits) <= most {
        Ok(Operand::Imm { bits })
    } else {
        Err(Fault::Range)
    }
}

// The second operand, where a number lies from `-least` to `most`.
fn operand_of(
    names: &Names,
    here: u32,
    least: u64,
    most: u64,
    operand: &Source,
) -> Result<Operand, Fault>
    requires least { least ≤ 4096 }
    requires most { most ≤ 4095 }
    ensures { result ≡ operand_of (value_in names.now) here least most operand.now }
{
    match operand {
        Source::Register(number) => Ok(Operand::Reg { rs2: *number }),
        Source::Number(expression) => {
            let value = number_of(names, here, least, most, expression)?;
            Ok(Operand::Imm {
                bits: value.modulo(1 << 13) as u16,
            })
        }
        Source::Low(expression) => {
            let word = word_of(names, here, expression)?;
            immediate(most, (word % 1024) as u16)
        }
    }
}

// The second operand of most instructions: a number has 13 bits with a sign.
fn plain_operand(names: &Names, here: u32, operand: &Source) -> Result<Operand, Fault>
    ensures { result ≡ plain_operand (value_in names.now) here operand.now }
{
    operand_of(names, here, 4096, 4095, operand)
}

// The target of a call or a branch.
fn target_of(names: &Names, here: u32, expression: &Expression) -> Result<Sum, Fault>
    ensures value { result ≡ target_of (value_in names.now) here expression.now }
    ensures range { IfOk result (λ value. (below value ≤ 0) × (above value < 2 ^ 32)) }
{
    number_of(names, here, 0, (1 << 32) - 1, expression)
}

// What was found of a target that is a multiple of 4.
fn aligned(target: Sum, found: u32) -> Result<u32, Fault>
    ensures { result ≡ aligned target found }
{
    if target.above() % 4 == 0 {
        Ok(found)
    } else {
        Err(Fault::Unaligned)
    }
}

// How far a call's target lies ahead, in words modulo 2^30.
fn call_distance(names: &Names, here: u32, expression: &Expression) -> Result<u32, Fault>
    ensures value { result ≡ call_distance (value_in names.now) here expression.now }
{
    let target = target_of(names, here, expression)?;
    let words = ahead(target, here).quarter();
    aligned(target, words.modulo(1 << 30) as u32)
}

// How far a target lies ahead.
fn ahead(target: Sum, here: u32) -> Sum
    ensures { result ≡ ahead target here }
{
    Sum {
        plus: target.above(),
        minus: u64::from(here),
    }
}

// How far a branch's target lies ahead, in words of 22 bits.
fn branch_distance(names: &Names, here: u32, expression: &Expression) -> Result<u32, Fault>
    ensures value { result ≡ branch_distance (value_in names.now) here expression.now }
{
    let target = target_of(names, here, expression)?;
    let distance = ahead(target, here);
    if distance.is_between(1 << 23, (1 << 23) - 4) {
        aligned(target, distance.quarter().modulo(1 << 22) as u32)
    } else {
        Err(Fault::Range)
    }
}

// SETHI and OR of a word.
fn set_word(rd: u8, word: u32) -> Coded
    ensures { result ≡ set_word rd word }
{
    Coded::Two(
        Instr::Sethi {
            rd,
            imm: word / 1024,
        },
        Instr::Arith {
            op3: 0x02,
            rd,
            rs1: rd,
            operand: Operand::Imm {
                bits: (word % 1024) as u16,
            },
        },
    )
}

/// The instructions of a statement at a place, with all names known.
#[tactic(auto, unfolding(crate::specs::Encoding::coded))]
pub fn encode(names: &Names, here: u32, statement: &Statement) -> Result<Coded, Fault>
    ensures { result ≡ coded (value_in names.now) here statement.now }
{
    let instr = match statement {
        Statement::Call { target } => Instr::Call {
            disp: call_distance(names, here, target)?,
        },
        Statement::Branch {
            annul,
            cond,
            target,
        } => Instr::Branch {
            annul: *annul,
            cond: *cond,
            disp: branch_distance(names, here, target)?,
        },
        Statement::Sethi { value, rd } => Instr::Sethi {
            rd: *rd,
            imm: number_of(names, here, 0, 4_194_303, value)?.above() as u32,
        },
        Statement::SethiHigh { value, rd } => Instr::Sethi {
            rd: *rd,
            imm: word_of(names, here, value)? / 1024,
        },
        Statement::Set { value, rd } => return Ok(set_word(*rd, word_of(names, here, value)?)),
        _ => return with_operand(names, here, statement),
    };
    Ok(Coded::One(instr))
}

// The same of a statement that has an operand, or none to be looked up.
#[tactic(auto, unfolding(crate::specs::Encoding::coded))]
fn with_operand(names: &Names, here: u32, statement: &Statement) -> Result<Coded, Fault>
    requires { HasOperand statement.now }
    ensures { result ≡ coded (value_in names.now) here statement.now }
{
    let instr = match statement {
        Statement::Arith {
            op3,
            rs1,
            operand,
            rd,
        } => Instr::Arith {
            op3: *op3,
            rd: *rd,
            rs1: *rs1,
            operand: plain_operand(names, here, operand)?,
        },
        Statement::Shift {
            op3,
            rs1,
            operand,
            rd,
        } => Instr::Shift {
            op3: *op3,
            rd: *rd,
            rs1: *rs1,
            operand: operand_of(names, here, 0, 31, operand)?,
        },
        Statement::WriteY { rs1, operand } => Instr::WriteY {
            rs1: *rs1,
            operand: plain_operand(names, here, operand)?,
        },
        Statement::Jmpl { address, rd } => Instr::Jmpl {
            rd: *rd,
            rs1: address.base,
            operand: plain_operand(names, here, &address.offset)?,
        },
        Statement::Trap { cond, address } => Instr::TrapOn {
            cond: *cond,
            rs1: address.base,
            operand: operand_of(names, here, 0, 127, &address.offset)?,
        },
        Statement::Memory { op3, address, rd } => Instr::Memory {
            op3: *op3,
            rd: *rd,
            rs1: address.base,
            operand: plain_operand(names, here, &address.offset)?,
        },
        Statement::ReadY { rd } => Instr::ReadY { rd: *rd },
        _ => return Ok(Coded::Nothing),
    };
    Ok(Coded::One(instr))
}

/// The word of an instruction.
pub fn instr_word(instr: &Instr) -> u32
    requires { Fits instr.now }
    ensures { result ≡ instr_word instr.now }
{
    sparc_table::encode(instr)
}
