ghost use Rattle.std.specs.Prelude.{◌≡◌, ◌<◌, ◌+◌, ◌-◌, ◌*◌, ◌/◌, ◌^◌, ◌++◌, OnOk, cond, nat_lt, nat_le, codes};
ghost use Rattle.sparc_table.specs.Table.{Fits, FitsOperand};
ghost use Rattle.sparc_table.specs.Control.{branch_target};
ghost use Rattle.sparc_table.specs.Operands.{sign_extended};
ghost use Rattle.sparc_table.specs.declared.instructions.Instr.TheVariants.{Call, Sethi, Arith, Shift, ReadY, WriteY, Jmpl, TrapOn, Memory};
ghost use Rattle.sparc_text.specs.Statements.{register_text, arithmetic_name, bracketed, annul_text, branch_text, high_text, is_store, plain_text, is_writable, data_text, statement_text, statement_at};

use crate::names::{access_name, condition_name, plain_name, shift_name};
use crate::operands::{put_address, put_operand, put_register, put_three, put_trap};
use alw_num::NoMemory;
use alw_text::{Spell, Text};
use sparc_table::{Instr, Operand, decode};

/// The statement at an address of a program, or `-` where no word stands there.
pub fn put_statement_at(text: &mut Text, code: &[u32], address: u32) -> Result<(), NoMemory>
    ensures { OnOk result (text.new ≡ text.old ++ statement_at code.now address) }
{
    match code.get((address / 4) as usize) {
        Some(word) => put_statement(text, address, *word),
        None => text.put(b"-"),
    }
}

/// The statement of a word that stands at an address: its instruction's, where it has one that can be written.
#[tactic(auto, unfolding(crate::specs::Statements::statement_text))]
pub fn put_statement(text: &mut Text, address: u32, word: u32) -> Result<(), NoMemory>
    ensures { OnOk result (text.new ≡ text.old ++ statement_text address word) }
{
    match decode(word) {
        Some(instr) if is_writable(address, &instr) => put_plain(text, address, &instr),
        _ => put_data(text, word),
    }
}

// An instruction can be written at an address.
fn is_writable(here: u32, instr: &Instr) -> bool
    requires { Fits instr.now }
    ensures { result ≡ is_writable here instr.now }
{
    match instr {
        Instr::Branch { disp, .. } => reaches(here, *disp),
        _ => true,
    }
}

// The target of a branch is an address.
fn reaches(here: u32, disp: u32) -> bool
    requires { disp < 2 ^ 22 }
    ensures { result ≡ cond (nat_lt disp (2 ^ 21)) (nat_lt (here + 4 * disp) (2 ^ 32)) (nat_le (4 * (2 ^ 22 - disp)) here) }
{
    if disp < 0x20_0000 {
        here.checked_add(4 * disp).is_some()
    } else {
        4 * (0x40_0000 - disp) <= here
    }
}

// A word as data.
fn put_data(text: &mut Text, word: u32) -> Result<(), NoMemory>
    ensures { OnOk result (text.new ≡ text.old ++ data_text word) }
{
    text.put(b".word ")?;
    text.put_hex32(word)?;
    Ok(())
}

// An instruction.
fn put_plain(text: &mut Text, here: u32, instr: &Instr) -> Result<(), NoMemory>
    requires { Fits instr.now }
    ensures { OnOk result (text.new ≡ text.old ++ plain_text here instr.now) }
{
    match *instr {
        Instr::Call { disp } => put_call(text, here, disp),
        Instr::Sethi { rd, imm } => put_sethi(text, rd, imm),
        Instr::Branch { annul, cond, disp } => put_branch(text, here, annul, cond, disp),
        Instr::Arith {
            op3,
            rd,
            rs1,
            operand,
        } => put_arithmetic(text, op3, rd, rs1, operand),
        Instr::Shift {
            op3,
            rd,
            rs1,
            operand,
        } => put_shift(text, op3, rd, rs1, operand),
        Instr::ReadY { rd } => put_read_y(text, rd),
        Instr::WriteY { rs1, operand } => put_write_y(text, rs1, operand),
        Instr::Jmpl { rd, rs1, operand } => put_jump(text, rd, rs1, operand),
        Instr::TrapOn { cond, rs1, operand } => put_trap_on(text, cond, rs1, operand),
        Instr::Memory {
            op3,
            rd,
            rs1,
            operand,
        } => put_access(text, op3, rd, rs1, operand),
    }
}

// CALL, with its target.
#[tactic(auto, unfolding(crate::specs::Statements::call_text))]
fn put_call(text: &mut Text, here: u32, disp: u32) -> Result<(), NoMemory>
    requires { disp < 2 ^ 30 }
    ensures { OnOk result (text.new ≡ text.old ++ plain_text here (Call disp)) }
{
    text.put(b"call ")?;
    text.put_hex32(here.wrapping_add(4 * disp))?;
    Ok(())
}

// SETHI: `nop` where it sets register 0 to 0. A clause below says 0 for the address where a row's text doesn't
// depend on it.
fn put_sethi(text: &mut Text, rd: u8, imm: u32) -> Result<(), NoMemory>
    requires rd { rd < 32 }
    requires imm { imm < 2 ^ 22 }
    ensures { OnOk result (text.new ≡ text.old ++ plain_text 0 (Sethi rd imm)) }
{
    if rd == 0 && imm == 0 {
        text.put(b"nop")
    } else {
        put_high(text, rd, imm)
    }
}

// SETHI, with the word of which it takes the upper 22 bits.
#[tactic(auto, unfolding(crate::specs::Statements::high_text))]
fn put_high(text: &mut Text, rd: u8, imm: u32) -> Result<(), NoMemory>
    requires rd { rd < 32 }
    requires imm { imm < 2 ^ 22 }
    ensures { OnOk result (text.new ≡ text.old ++ high_text rd imm) }
{
    text.put(b"sethi %hi(")?;
    text.put_hex32(imm * 1024)?;
    text.put(b"),")?;
    put_register(text, rd)?;
    Ok(())
}

// Bicc, with its target.
#[tactic(auto, unfolding(crate::specs::Statements::branch_text))]
fn put_branch(
    text: &mut Text,
    here: u32,
    annul: bool,
    condition: u8,
    disp: u32,
) -> Result<(), NoMemory>
    requires condition { condition < 16 }
    requires disp { disp < 2 ^ 22 }
    ensures { OnOk result (text.new ≡ text.old ++ branch_text here annul condition disp) }
{
    text.put(b"b")?;
    text.put(condition_name(condition).as_bytes())?;
    put_annul(text, annul)?;
    text.put_hex32(target_of(here, disp))?;
    Ok(())
}

// The bit that annuls the delay slot, and the blank behind the name.
fn put_annul(text: &mut Text, annul: bool) -> Result<(), NoMemory>
    ensures { OnOk result (text.new ≡ text.old ++ annul_text annul) }
{
    if annul {
        text.put(b",a ")
    } else {
        text.put(b" ")
    }
}

// The target of a branch, whose 22 bits are signed.
fn target_of(here: u32, disp: u32) -> u32
    requires { disp < 2 ^ 22 }
    ensures { result ≡ branch_target here disp }
{
    here.wrapping_add(sign_extend_22(disp).wrapping_mul(4))
}

// 22 bits, sign-extended.
fn sign_extend_22(bits: u32) -> u32
    requires { bits < 4194304 }
    ensures { result ≡ sign_extended 22 bits }
{
    if bits < 0x20_0000 {
        bits
    } else {
        bits + 0xffc0_0000
    }
}

// Arithmetic and logic.
fn put_arithmetic(
    text: &mut Text,
    op3: u8,
    rd: u8,
    rs1: u8,
    operand: Operand,
) -> Result<(), NoMemory>
    requires { Fits (Arith op3 rd rs1 operand) }
    ensures { OnOk result (text.new ≡ text.old ++ plain_text 0 (Arith op3 rd rs1 operand)) }
{
    put_arithmetic_name(text, op3)?;
    text.put(b" ")?;
    put_three(text, rs1, operand, rd)?;
    Ok(())
}

// The name, with `cc` behind it where the form sets the codes.
fn put_arithmetic_name(text: &mut Text, op3: u8) -> Result<(), NoMemory>
    ensures { OnOk result (text.new ≡ text.old ++ arithmetic_name op3) }
{
    text.put(plain_name(op3).as_bytes())?;
    if op3 >= 16 {
        text.put(b"cc")?;
    }
    Ok(())
}

// SLL, SRL and SRA.
fn put_shift(text: &mut Text, op3: u8, rd: u8, rs1: u8, operand: Operand) -> Result<(), NoMemory>
    requires { Fits (Shift op3 rd rs1 operand) }
    ensures { OnOk result (text.new ≡ text.old ++ plain_text 0 (Shift op3 rd rs1 operand)) }
{
    text.put(shift_name(op3).as_bytes())?;
    text.put(b" ")?;
    put_three(text, rs1, operand, rd)?;
    Ok(())
}

// RDY.
fn put_read_y(text: &mut Text, rd: u8) -> Result<(), NoMemory>
    requires { rd < 32 }
    ensures { OnOk result (text.new ≡ text.old ++ plain_text 0 (ReadY rd)) }
{
    text.put(b"rd %y,")?;
    put_register(text, rd)?;
    Ok(())
}

// WRY.
fn put_write_y(text: &mut Text, rs1: u8, operand: Operand) -> Result<(), NoMemory>
    requires { Fits (WriteY rs1 operand) }
    ensures { OnOk result (text.new ≡ text.old ++ plain_text 0 (WriteY rs1 operand)) }
{
    text.put(b"wr ")?;
    put_register(text, rs1)?;
    text.put(b",")?;
    put_operand(text, operand)?;
    text.put(b",%y")?;
    Ok(())
}

// JMPL.
fn put_jump(text: &mut Text, rd: u8, rs1: u8, operand: Operand) -> Result<(), NoMemory>
    requires { Fits (Jmpl rd rs1 operand) }
    ensures { OnOk result (text.new ≡ text.old ++ plain_text 0 (Jmpl rd rs1 operand)) }
{
    text.put(b"jmpl ")?;
    put_address(text, rs1, operand)?;
    text.put(b",")?;
    put_register(text, rd)?;
    Ok(())
}

// Ticc.
fn put_trap_on(text: &mut Text, condition: u8, rs1: u8, operand: Operand) -> Result<(), NoMemory>
    requires { Fits (TrapOn condition rs1 operand) }
    ensures { OnOk result (text.new ≡ text.old ++ plain_text 0 (TrapOn condition rs1 operand)) }
{
    text.put(b"t")?;
    text.put(condition_name(condition).as_bytes())?;
    text.put(b" ")?;
    put_trap(text, rs1, operand)?;
    Ok(())
}

// Loads, stores, LDSTUB and SWAP.
fn put_access(text: &mut Text, op3: u8, rd: u8, rs1: u8, operand: Operand) -> Result<(), NoMemory>
    requires { Fits (Memory op3 rd rs1 operand) }
    ensures { OnOk result (text.new ≡ text.old ++ plain_text 0 (Memory op3 rd rs1 operand)) }
{
    text.put(access_name(op3).as_bytes())?;
    text.put(b" ")?;
    if is_store(op3) {
        put_stored(text, rd, rs1, operand)?;
    } else {
        put_loaded(text, rd, rs1, operand)?;
    }
    Ok(())
}

/// The op3 is of a store, whose register stands first.
pub fn is_store(op3: u8) -> bool
    ensures { result ≡ is_store op3 }
{
    matches!(op3, 0x04..=0x06)
}

// The register that is stored, and the address.
fn put_stored(text: &mut Text, rd: u8, rs1: u8, operand: Operand) -> Result<(), NoMemory>
    requires { (rd < 32) × (rs1 < 32) × FitsOperand 13 operand }
    ensures { OnOk result (text.new ≡ text.old ++ (register_text rd ++ (codes "," ++ bracketed rs1 operand))) }
{
    put_register(text, rd)?;
    text.put(b",")?;
    put_bracketed(text, rs1, operand)?;
    Ok(())
}

// The address, and the register that is loaded.
fn put_loaded(text: &mut Text, rd: u8, rs1: u8, operand: Operand) -> Result<(), NoMemory>
    requires { (rd < 32) × (rs1 < 32) × FitsOperand 13 operand }
    ensures { OnOk result (text.new ≡ text.old ++ (bracketed rs1 operand ++ (codes "," ++ register_text rd))) }
{
    put_bracketed(text, rs1, operand)?;
    text.put(b",")?;
    put_register(text, rd)?;
    Ok(())
}

// An address in brackets.
#[tactic(auto, unfolding(crate::specs::Statements::bracketed))]
fn put_bracketed(text: &mut Text, rs1: u8, operand: Operand) -> Result<(), NoMemory>
    requires { (rs1 < 32) × FitsOperand 13 operand }
    ensures { OnOk result (text.new ≡ text.old ++ bracketed rs1 operand) }
{
    text.put(b"[")?;
    put_address(text, rs1, operand)?;
    text.put(b"]")?;
    Ok(())
}
