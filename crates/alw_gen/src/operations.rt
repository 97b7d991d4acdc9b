ghost use Rattle.std.specs.Prelude.{◌≡◌, ◌<◌, ◌≤◌, ◌^◌, ◌*◌, ◌+◌};
ghost use Rattle.sparc_table.specs.declared.instructions.Operand.TheVariants.{Reg, Imm};
ghost use Rattle.sparc_table.specs.declared.instructions.Instr.TheVariants.{Arith, TrapOn, Memory};
ghost use Rattle.alw_gen.specs.Workloads.{address_drawn, access, operation, ending};

use alw_num::{LINE_BYTES, SHARED_BASE};
use sparc_table::{Instr, Operand};

const G0: u8 = 0;

const G1: u8 = 1;

const G2: u8 = 2;

const G3: u8 = 3;

const O0: u8 = 8;

const NOP: Instr = Instr::Sethi { rd: G0, imm: 0 };

/// The operation that a number draws, on a memory of so many lines.
pub fn operation(lines: u32, number: u32) -> [Instr; 4]
    requires some { 1 ≤ lines }
    requires few { lines ≤ 1024 }
    ensures { result ≡ operation lines number }
{
    let address = SHARED_BASE + LINE_BYTES * (number % lines) + 4 * (number >> 26 & 3);
    let [first, second] = access(number >> 24 & 3);
    [
        Instr::Sethi {
            rd: G1,
            imm: address / 1024,
        },
        or(
            G1,
            G1,
            Operand::Imm {
                bits: (address % 1024) as u16,
            },
        ),
        first,
        second,
    ]
}

// How the word at %g1 is used.
fn access(kind: u32) -> [Instr; 2]
    ensures { result ≡ access kind }
{
    match kind {
        0 => [on_word(0x00, G2), add(Operand::Reg { rs2: G2 })],
        1 => [on_word(0x04, G3), add(Operand::Imm { bits: 1 })],
        2 => [on_word(0x0f, G3), NOP],
        _ => [on_word(0x0d, G2), NOP],
    }
}

/// The instructions behind a node's operations: it prints its sum, and halts.
pub fn ending() -> [Instr; 3]
    ensures { result ≡ ending }
{
    [
        or(O0, G0, Operand::Reg { rs2: G3 }),
        trap_always(1),
        trap_always(0),
    ]
}

// A load, a store, SWAP or LDSTUB of the word at %g1.
fn on_word(op3: u8, rd: u8) -> Instr
    ensures { result ≡ Memory op3 rd 1 (Reg 0) }
{
    Instr::Memory {
        op3,
        rd,
        rs1: G1,
        operand: Operand::Reg { rs2: G0 },
    }
}

// ADD to %g3.
fn add(operand: Operand) -> Instr
    ensures { result ≡ Arith 0x00 3 3 operand }
{
    Instr::Arith {
        op3: 0x00,
        rd: G3,
        rs1: G3,
        operand,
    }
}

fn or(rd: u8, rs1: u8, operand: Operand) -> Instr
    ensures { result ≡ Arith 0x02 rd rs1 operand }
{
    Instr::Arith {
        op3: 0x02,
        rd,
        rs1,
        operand,
    }
}

// `ta`
fn trap_always(number: u16) -> Instr
    ensures { result ≡ TrapOn 8 0 (Imm number) }
{
    Instr::TrapOn {
        cond: 8,
        rs1: G0,
        operand: Operand::Imm { bits: number },
    }
}
