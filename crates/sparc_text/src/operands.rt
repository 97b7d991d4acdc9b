ghost use Rattle.std.specs.Prelude.{◌≡◌, ◌<◌, ◌++◌, ◌^◌, ◌-◌, OnOk, codes, cond, nat_lt};
ghost use Rattle.std.specs.Fmt.{decimal};
ghost use Rattle.sparc_table.specs.Table.{FitsOperand};
ghost use Rattle.sparc_text.specs.Statements.{bank_letter, register_text, operand_text, offset_text, address_text, trap_text, three_text};

use alw_num::NoMemory;
use alw_text::{Spell, Text, put_number};
use sparc_table::Operand;

/// A register, `%g0` to `%i7`.
#[tactic(auto, unfolding(crate::specs::Statements::register_text))]
pub fn put_register(text: &mut Text, register: u8) -> Result<(), NoMemory>
    requires { register < 32 }
    ensures { OnOk result (text.new ≡ text.old ++ register_text register) }
{
    text.put(&[b'%', bank_letter(register), b'0' + register % 8])
}

// The letter of a register's bank.
fn bank_letter(register: u8) -> u8
    ensures { result ≡ bank_letter register }
{
    match register {
        0..=7 => b'g',
        8..=15 => b'o',
        16..=23 => b'l',
        _ => b'i',
    }
}

/// An operand behind a comma or alone: a register, or simm13 with its sign.
pub fn put_operand(text: &mut Text, operand: Operand) -> Result<(), NoMemory>
    requires { FitsOperand 13 operand }
    ensures { OnOk result (text.new ≡ text.old ++ operand_text operand) }
{
    match operand {
        Operand::Reg { rs2 } => put_register(text, rs2),
        Operand::Imm { bits } => put_signed(text, b"", bits),
    }
}

// Simm13 with its sign, behind another one where it isn't negative.
fn put_signed(text: &mut Text, plus: &[u8], bits: u16) -> Result<(), NoMemory>
    requires { bits < 2 ^ 13 }
    ensures { OnOk result (text.new ≡ text.old ++ cond (nat_lt bits 4096) (plus.now ++ decimal bits) (codes "-" ++ decimal (8192 - bits))) }
{
    if bits < 4096 {
        put_number(text, plus, u64::from(bits))
    } else {
        put_number(text, b"-", u64::from(8192 - bits))
    }
}

// What is added to an address's register.
fn put_offset(text: &mut Text, operand: Operand) -> Result<(), NoMemory>
    requires { FitsOperand 13 operand }
    ensures { OnOk result (text.new ≡ text.old ++ offset_text operand) }
{
    match operand {
        Operand::Reg { rs2: 0 } => Ok(()),
        Operand::Reg { rs2 } => put_added(text, rs2),
        Operand::Imm { bits } => put_signed(text, b"+", bits),
    }
}

// A register that is added.
fn put_added(text: &mut Text, register: u8) -> Result<(), NoMemory>
    requires { register < 32 }
    ensures { OnOk result (text.new ≡ text.old ++ (codes "+" ++ register_text register)) }
{
    text.put(b"+")?;
    put_register(text, register)?;
    Ok(())
}

/// An address: a register, and what is added to it.
pub fn put_address(text: &mut Text, rs1: u8, operand: Operand) -> Result<(), NoMemory>
    requires rs1 { rs1 < 32 }
    requires operand { FitsOperand 13 operand }
    ensures { OnOk result (text.new ≡ text.old ++ address_text rs1 operand) }
{
    put_register(text, rs1)?;
    put_offset(text, operand)?;
    Ok(())
}

/// The number of a trap: alone where it is added to register 0.
pub fn put_trap(text: &mut Text, rs1: u8, operand: Operand) -> Result<(), NoMemory>
    requires rs1 { rs1 < 32 }
    requires operand { FitsOperand 13 operand }
    ensures { OnOk result (text.new ≡ text.old ++ trap_text rs1 operand) }
{
    match operand {
        Operand::Imm { bits } if rs1 == 0 => text.put_decimal(u64::from(bits)),
        _ => put_address(text, rs1, operand),
    }
}

/// A register, an operand and a register.
#[tactic(auto, unfolding(crate::specs::Statements::three_text))]
pub fn put_three(text: &mut Text, rs1: u8, operand: Operand, rd: u8) -> Result<(), NoMemory>
    requires rs1 { rs1 < 32 }
    requires operand { FitsOperand 13 operand }
    requires rd { rd < 32 }
    ensures { OnOk result (text.new ≡ text.old ++ three_text rs1 operand rd) }
{
    put_register(text, rs1)?;
    text.put(b",")?;
    put_operand(text, operand)?;
    text.put(b",")?;
    put_register(text, rd)?;
    Ok(())
}
