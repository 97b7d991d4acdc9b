ghost use Rattle.std.specs.Prelude.{◌≡◌, ◌==◌, ◌<◌, ◌^◌, ℕ, Some, IfSome, MatchOption, option_map};
ghost use Rattle.sparc_table.specs.Fields.{bits_of, op_of, op2_of, op3_of, rd_of, rs1_of, annul_of, cond_of};
ghost use Rattle.sparc_table.specs.Table.{Fits, FitsOperand, IsSpelled, WordIsOutside, IsFormat3, is_in, arithmetic, accesses, only_if, instr_of, format_2, format_3, memory, register_in, operand_in, short_operand_in};

use crate::instructions::{Instr, Operand};

/// The instruction that a word spells. None exactly outside the table (SPARC V8 manual, appendix F).
#[tactic(auto, using(crate::proofs::Rows::table, crate::proofs::Rows::table_fits), unfolding(crate::specs::Table::instr_of))]
#[inline(always)]
pub fn decode(word: u32) -> Option<Instr>
    ensures row { result ≡ instr_of word }
    ensures spelled { MatchOption result (WordIsOutside word) (λ instr. IsSpelled instr word) }
    ensures fits { IfSome result (λ instr. Fits instr) }
{
    match op(word) {
        0 => decode_format_2(word),
        1 => Some(Instr::Call {
            disp: word & 0x3fff_ffff,
        }),
        2 => decode_format_3(word),
        _ => decode_memory(word),
    }
}

// SETHI and Bicc, by op2.
#[inline(always)]
fn decode_format_2(word: u32) -> Option<Instr>
    ensures { result ≡ format_2 word }
{
    match op2(word) {
        4 => Some(Instr::Sethi {
            rd: rd(word),
            imm: word & 0x3f_ffff,
        }),
        2 => Some(Instr::Branch {
            annul: word >> 29 & 1 == 1,
            cond: cond(word),
            disp: word & 0x3f_ffff,
        }),
        _ => None,
    }
}

// The rows of format 3 but memory, by op3.
#[inline(always)]
fn decode_format_3(word: u32) -> Option<Instr>
    ensures { result ≡ format_3 (op3_of word) word }
{
    match op3(word) {
        0x25..=0x27 => decode_shift(word),
        0x28 => decode_read_y(word),
        0x30 => decode_write_y(word),
        0x38 => decode_jmpl(word),
        0x3a => decode_trap(word),
        _ => decode_arithmetic(word),
    }
}

// Bits 31 to 30.
fn op(word: u32) -> u32
    ensures { result ≡ op_of word }
{
    word >> 30
}

// Bits 24 to 22.
fn op2(word: u32) -> u32
    ensures { result ≡ op2_of word }
{
    word >> 22 & 7
}

// Bits 29 to 25.
fn rd(word: u32) -> u8
    ensures { result ≡ rd_of word }
{
    (word >> 25 & 0x1f) as u8
}

// Bits 24 to 19.
fn op3(word: u32) -> u8
    ensures { result ≡ op3_of word }
{
    (word >> 19 & 0x3f) as u8
}

// Bits 18 to 14.
fn rs1(word: u32) -> u8
    ensures { result ≡ rs1_of word }
{
    (word >> 14 & 0x1f) as u8
}

// Bits 28 to 25.
fn cond(word: u32) -> u8
    ensures { result ≡ cond_of word }
{
    (word >> 25 & 0xf) as u8
}

// The register that is the operand.
fn register_operand(word: u32) -> Option<Operand>
    ensures { result ≡ register_in word }
{
    if word >> 5 & 0xff != 0 {
        return None;
    }
    Some(Operand::Reg {
        rs2: (word & 0x1f) as u8,
    })
}

// The operand, a register or simm13.
fn operand(word: u32) -> Option<Operand>
    ensures { result ≡ operand_in word }
{
    if word >> 13 & 1 == 0 {
        return register_operand(word);
    }
    Some(Operand::Imm {
        bits: (word & 0x1fff) as u16,
    })
}

// The operand of a shift, a register or a count of 5 bits.
fn shift_count(word: u32) -> Option<Operand>
    ensures { result ≡ short_operand_in 5 word }
{
    if word >> 13 & 1 == 0 {
        return register_operand(word);
    }
    if word >> 5 & 0xff != 0 {
        return None;
    }
    Some(Operand::Imm {
        bits: (word & 0x1f) as u16,
    })
}

// The operand of Ticc, a register or a number of 7 bits.
fn trap_number(word: u32) -> Option<Operand>
    ensures { result ≡ short_operand_in 7 word }
{
    if word >> 13 & 1 == 0 {
        return register_operand(word);
    }
    if word >> 7 & 0x3f != 0 {
        return None;
    }
    Some(Operand::Imm {
        bits: (word & 0x7f) as u16,
    })
}

// Is an op3 of arithmetic and logic, with and without codes?
fn is_arithmetic(op3: u8) -> bool
    ensures { result ≡ is_in arithmetic op3 }
{
    matches!(op3, 0x00..=0x08 | 0x0a..=0x0c | 0x10..=0x18 | 0x1c)
}

// Is an op3 of a load, a store, LDSTUB or SWAP?
fn is_access(op3: u8) -> bool
    ensures { result ≡ is_in accesses op3 }
{
    matches!(op3, 0x00..=0x02 | 0x04..=0x06 | 0x09 | 0x0a | 0x0d | 0x0f)
}

#[inline(always)]
fn decode_arithmetic(word: u32) -> Option<Instr>
    ensures { result ≡ only_if (is_in arithmetic (op3_of word)) (option_map (Instr.Arith (op3_of word) (rd_of word) (rs1_of word)) (operand_in word)) }
{
    let op3 = op3(word);
    if !is_arithmetic(op3) {
        return None;
    }
    Some(Instr::Arith {
        op3,
        rd: rd(word),
        rs1: rs1(word),
        operand: operand(word)?,
    })
}

#[inline(always)]
fn decode_memory(word: u32) -> Option<Instr>
    ensures { result ≡ memory (op3_of word) word }
{
    let op3 = op3(word);
    if !is_access(op3) {
        return None;
    }
    Some(Instr::Memory {
        op3,
        rd: rd(word),
        rs1: rs1(word),
        operand: operand(word)?,
    })
}

fn decode_shift(word: u32) -> Option<Instr>
    ensures { result ≡ option_map (Instr.Shift (op3_of word) (rd_of word) (rs1_of word)) (short_operand_in 5 word) }
{
    Some(Instr::Shift {
        op3: op3(word),
        rd: rd(word),
        rs1: rs1(word),
        operand: shift_count(word)?,
    })
}

fn decode_read_y(word: u32) -> Option<Instr>
    ensures { result ≡ only_if (bits_of 0 19 word == 0) (Some (Instr.ReadY (rd_of word))) }
{
    if word & 0x7_ffff != 0 {
        return None;
    }
    Some(Instr::ReadY { rd: rd(word) })
}

fn decode_write_y(word: u32) -> Option<Instr>
    ensures { result ≡ only_if (rd_of word == 0) (option_map (Instr.WriteY (rs1_of word)) (operand_in word)) }
{
    if rd(word) != 0 {
        return None;
    }
    Some(Instr::WriteY {
        rs1: rs1(word),
        operand: operand(word)?,
    })
}

fn decode_jmpl(word: u32) -> Option<Instr>
    ensures { result ≡ option_map (Instr.Jmpl (rd_of word) (rs1_of word)) (operand_in word) }
{
    Some(Instr::Jmpl {
        rd: rd(word),
        rs1: rs1(word),
        operand: operand(word)?,
    })
}

fn decode_trap(word: u32) -> Option<Instr>
    ensures { result ≡ only_if (annul_of word == 0) (option_map (Instr.TrapOn (cond_of word) (rs1_of word)) (short_operand_in 7 word)) }
{
    if word >> 29 & 1 != 0 {
        return None;
    }
    Some(Instr::TrapOn {
        cond: cond(word),
        rs1: rs1(word),
        operand: trap_number(word)?,
    })
}

/// The one word that spells an instruction of the table.
pub fn encode(instr: &Instr) -> u32
    requires { Fits instr.now }
    ensures spelled { IsSpelled instr.now result }
    ensures only { (word : ℕ) → word < 2 ^ 32 → IsSpelled instr.now word → word ≡ result }
    ensures row { instr_of result ≡ Some instr.now }
{
    match *instr {
        Instr::Call { disp } => (1 << 30) + disp,
        Instr::Sethi { rd, imm } => (u32::from(rd) << 25) + (4 << 22) + imm,
        Instr::Branch { annul, cond, disp } => {
            (u32::from(annul) << 29) + (u32::from(cond) << 25) + (2 << 22) + disp
        }
        Instr::Arith {
            op3,
            rd,
            rs1,
            operand,
        } => encode_format_3(2, op3, rd, rs1, operand),
        Instr::Shift {
            op3,
            rd,
            rs1,
            operand,
        } => encode_format_3(2, op3, rd, rs1, operand),
        Instr::ReadY { rd } => encode_format_3(2, 0x28, rd, 0, Operand::Reg { rs2: 0 }),
        Instr::WriteY { rs1, operand } => encode_format_3(2, 0x30, 0, rs1, operand),
        Instr::Jmpl { rd, rs1, operand } => encode_format_3(2, 0x38, rd, rs1, operand),
        Instr::TrapOn { cond, rs1, operand } => encode_format_3(2, 0x3a, cond, rs1, operand),
        Instr::Memory {
            op3,
            rd,
            rs1,
            operand,
        } => encode_format_3(3, op3, rd, rs1, operand),
    }
}

// The word of format 3 with these fields.
fn encode_format_3(op: u32, op3: u8, rd: u8, rs1: u8, operand: Operand) -> u32
    requires op { op < 4 }
    requires op3 { op3 < 64 }
    requires rd { rd < 32 }
    requires rs1 { rs1 < 32 }
    requires operand { FitsOperand 13 operand }
    ensures spelled { IsFormat3 op op3 rd rs1 13 operand result }
    ensures only { (word : ℕ) → word < 2 ^ 32 → IsFormat3 op op3 rd rs1 13 operand word → word ≡ result }
{
    let low = match operand {
        Operand::Reg { rs2 } => u32::from(rs2),
        Operand::Imm { bits } => (1 << 13) + u32::from(bits),
    };
    (op << 30) + (u32::from(rd) << 25) + (u32::from(op3) << 19) + (u32::from(rs1) << 14) + low
}
