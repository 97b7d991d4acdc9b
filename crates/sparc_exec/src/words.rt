ghost use Rattle.std.specs.Prelude.{◌≡◌, ◌==◌, ◌<◌, IsTrue, IsFalse};
ghost use Rattle.alw_num.specs.Lanes.{IsAligned};
ghost use Rattle.alw_num.specs.declared.addresses.LineNo.{LineNo};
ghost use Rattle.alw_num.specs.declared.states.Mode.{Mode};
ghost use Rattle.sparc_table.specs.Fields.{bits_of, op_of, op2_of, op3_of, rd_of, rs1_of, annul_of, cond_of};
ghost use Rattle.sparc_table.specs.Table.{is_in, accesses, register_in, operand_in, short_operand_in};
ghost use Rattle.sparc_table.specs.Registers.{register, with_register};
ghost use Rattle.sparc_table.specs.Access.{width_of, is_load};
ghost use Rattle.sparc_table.specs.Control.{next};
ghost use Rattle.sparc_table.specs.Meaning.{accessed};
ghost use Rattle.sparc_exec.specs.Ports.{granted};
ghost use Rattle.sparc_exec.specs.Rows.{op3_of_arithmetic, op3_of_shift};
ghost use Rattle.sparc_exec.specs.Runs.{seen, IsRunOn};
ghost use Rattle.sparc_exec.specs.Words.{row_of, rows, value_of, IsRunOf, IsRunBeside};

use crate::accesses::{is_load, line_at, load, store};
use crate::arithmetic::{Arithmetic, Operation, Shift, calculate, shift_word, sign_extend_13};
use crate::control::{advance, branch, call, jump, trap_on};
use crate::ports::Port;
use alw_num::{LineNo, Mode};
use sparc_table::{Outcome, Regs};

// The outcome of a word outside the table.
const OUTSIDE: Outcome = Outcome::Trap { tt: 0x02 };

// Runs a word over a port, by its row of the table. A word outside the table traps with type 02.
#[inline(always)]
pub fn run_word<P: Port>(word: u32, regs: &mut Regs, port: &mut P) -> Outcome
    ensures run { IsRunOf word (P.lines port.old) (seen regs.old (P.copy port.old) (P.calls port.old)) (seen regs.new (P.copy port.new) (P.calls port.new)) result }
    ensures sizes { (P.lines port.new ≡ P.lines port.old) × (P.places port.new ≡ P.places port.old) }
{
    let row = row(word);
    match row {
        0x80 => arith(Arithmetic::Plain(Operation::Add), word, regs),
        0x81 => arith(Arithmetic::Plain(Operation::And), word, regs),
        0x82 => arith(Arithmetic::Plain(Operation::Or), word, regs),
        0x83 => arith(Arithmetic::Plain(Operation::Xor), word, regs),
        0x84 => arith(Arithmetic::Plain(Operation::Sub), word, regs),
        0x85 => arith(Arithmetic::Plain(Operation::Andn), word, regs),
        0x86 => arith(Arithmetic::Plain(Operation::Orn), word, regs),
        0x87 => arith(Arithmetic::Plain(Operation::Xnor), word, regs),
        0x88 => arith(Arithmetic::Plain(Operation::Addx), word, regs),
        0x8a => arith(Arithmetic::Umul, word, regs),
        0x8b => arith(Arithmetic::Smul, word, regs),
        0x8c => arith(Arithmetic::Plain(Operation::Subx), word, regs),
        0x90 => arith(Arithmetic::Coded(Operation::Add), word, regs),
        0x91 => arith(Arithmetic::Coded(Operation::And), word, regs),
        0x92 => arith(Arithmetic::Coded(Operation::Or), word, regs),
        0x93 => arith(Arithmetic::Coded(Operation::Xor), word, regs),
        0x94 => arith(Arithmetic::Coded(Operation::Sub), word, regs),
        0x95 => arith(Arithmetic::Coded(Operation::Andn), word, regs),
        0x96 => arith(Arithmetic::Coded(Operation::Orn), word, regs),
        0x97 => arith(Arithmetic::Coded(Operation::Xnor), word, regs),
        0x98 => arith(Arithmetic::Coded(Operation::Addx), word, regs),
        0x9c => arith(Arithmetic::Coded(Operation::Subx), word, regs),
        0xa5 => shifted(Shift::Left, word, regs),
        0xa6 => shifted(Shift::Right, word, regs),
        0xa7 => shifted(Shift::SignedRight, word, regs),
        0xa8 => read_y(word, regs),
        0xb0 => write_y(word, regs),
        0xb8 => jump_to(word, regs),
        0xba => trap(word, regs),
        0xc0 => access(0x00, word, regs, port),
        0xc1 => access(0x01, word, regs, port),
        0xc2 => access(0x02, word, regs, port),
        0xc4 => access(0x04, word, regs, port),
        0xc5 => access(0x05, word, regs, port),
        0xc6 => access(0x06, word, regs, port),
        0xc9 => access(0x09, word, regs, port),
        0xca => access(0x0a, word, regs, port),
        0xcd => access(0x0d, word, regs, port),
        0xcf => access(0x0f, word, regs, port),
        _ => run_short(row, word, regs),
    }
}

// Bicc, SETHI and CALL, which have no op3, and words outside the table.
#[inline(always)]
fn run_short(row: u32, word: u32, regs: &mut Regs) -> Outcome
    requires row { row ≡ row_of word }
    requires other { IsFalse (is_in rows row) }
    ensures { IsRunBeside word regs.old regs.new result }
{
    if row / 8 == 2 {
        return branch_to(word, regs);
    }
    if row / 8 == 4 {
        return sethi(word, regs);
    }
    if row / 64 == 1 {
        return call_to(word, regs);
    }
    OUTSIDE
}

// The word's op, and then its op3.
#[inline(always)]
fn row(word: u32) -> u32
    ensures { result ≡ row_of word }
{
    (word >> 30) * 64 + (word >> 19 & 0x3f)
}

// Bits 29 to 25.
#[inline(always)]
fn rd(word: u32) -> u8
    ensures { result ≡ rd_of word }
{
    (word >> 25 & 0x1f) as u8
}

// Bits 28 to 25.
#[inline(always)]
fn cond(word: u32) -> u8
    ensures { result ≡ cond_of word }
{
    (word >> 25 & 0xf) as u8
}

// Bit 29.
#[inline(always)]
fn annul(word: u32) -> bool
    ensures { result ≡ (annul_of word == 1) }
{
    word >> 29 & 1 == 1
}

// Bits 18 to 0.
#[inline(always)]
fn low_19(word: u32) -> u32
    ensures { result ≡ bits_of 0 19 word }
{
    word & 0x7_ffff
}

// Bits 21 to 0.
#[inline(always)]
fn low_22(word: u32) -> u32
    ensures { result ≡ bits_of 0 22 word }
{
    word & 0x3f_ffff
}

// Bits 29 to 0.
#[inline(always)]
fn low_30(word: u32) -> u32
    ensures { result ≡ bits_of 0 30 word }
{
    word & 0x3fff_ffff
}

// The first register.
#[inline(always)]
fn first(word: u32, regs: &Regs) -> u32
    ensures { result ≡ register regs.now (rs1_of word) }
{
    regs.get((word >> 14 & 0x1f) as u8)
}

// The register that is the operand.
#[inline(always)]
fn second_register(word: u32, regs: &Regs) -> Option<u32>
    ensures { result ≡ value_of (register_in word) regs.now }
{
    if word >> 5 & 0xff != 0 {
        return None;
    }
    Some(regs.get((word & 0x1f) as u8))
}

// The operand, a register or simm13.
#[inline(always)]
fn second(word: u32, regs: &Regs) -> Option<u32>
    ensures { result ≡ value_of (operand_in word) regs.now }
{
    if word >> 13 & 1 == 0 {
        return second_register(word, regs);
    }
    Some(sign_extend_13(word & 0x1fff))
}

// The operand of a shift, a register or a count of 5 bits.
#[inline(always)]
fn shift_count(word: u32, regs: &Regs) -> Option<u32>
    ensures { result ≡ value_of (short_operand_in 5 word) regs.now }
{
    if word >> 13 & 1 == 0 {
        return second_register(word, regs);
    }
    if word >> 5 & 0xff != 0 {
        return None;
    }
    Some(word & 0x1f)
}

// The operand of Ticc, a register or a number of 7 bits.
#[inline(always)]
fn trap_number(word: u32, regs: &Regs) -> Option<u32>
    ensures { result ≡ value_of (short_operand_in 7 word) regs.now }
{
    if word >> 13 & 1 == 0 {
        return second_register(word, regs);
    }
    if word >> 7 & 0x3f != 0 {
        return None;
    }
    Some(word & 0x7f)
}

// rd gets a value, and the turn is done.
#[inline(always)]
fn assign(rd: u8, value: u32, regs: &mut Regs) -> Outcome
    requires { rd < 32 }
    ensures regs { regs.new ≡ next (with_register regs.old rd value) }
    ensures done { result ≡ Outcome.Done }
{
    regs.set(rd, value);
    advance(regs);
    Outcome::Done
}

// Bicc.
#[inline(always)]
fn branch_to(word: u32, regs: &mut Regs) -> Outcome
    requires op { op_of word ≡ 0 }
    requires op2 { op2_of word ≡ 2 }
    ensures { IsRunBeside word regs.old regs.new result }
{
    branch(annul(word), cond(word), low_22(word), regs)
}

// SETHI.
#[inline(always)]
fn sethi(word: u32, regs: &mut Regs) -> Outcome
    requires op { op_of word ≡ 0 }
    requires op2 { op2_of word ≡ 4 }
    ensures { IsRunBeside word regs.old regs.new result }
{
    assign(rd(word), low_22(word) * 1024, regs)
}

// CALL.
#[inline(always)]
fn call_to(word: u32, regs: &mut Regs) -> Outcome
    requires op { op_of word ≡ 1 }
    ensures { IsRunBeside word regs.old regs.new result }
{
    call(low_30(word), regs)
}

// Arithmetic and logic, with and without codes.
#[inline(always)]
fn arith(row: Arithmetic, word: u32, regs: &mut Regs) -> Outcome
    requires op { op_of word ≡ 2 }
    requires op3 { op3_of word ≡ op3_of_arithmetic row }
    ensures { IsRunBeside word regs.old regs.new result }
{
    let Some(y) = second(word, regs) else {
        return OUTSIDE;
    };
    calculate(row, rd(word), first(word, regs), y, regs);
    advance(regs);
    Outcome::Done
}

// SLL, SRL and SRA.
#[inline(always)]
fn shifted(row: Shift, word: u32, regs: &mut Regs) -> Outcome
    requires op { op_of word ≡ 2 }
    requires op3 { op3_of word ≡ op3_of_shift row }
    ensures { IsRunBeside word regs.old regs.new result }
{
    let Some(y) = shift_count(word, regs) else {
        return OUTSIDE;
    };
    let value = shift_word(row, first(word, regs), y);
    assign(rd(word), value, regs)
}

// RDY.
#[inline(always)]
fn read_y(word: u32, regs: &mut Regs) -> Outcome
    requires op { op_of word ≡ 2 }
    requires op3 { op3_of word ≡ 0x28 }
    ensures { IsRunBeside word regs.old regs.new result }
{
    if low_19(word) != 0 {
        return OUTSIDE;
    }
    assign(rd(word), regs.y, regs)
}

// WRY.
#[inline(always)]
fn write_y(word: u32, regs: &mut Regs) -> Outcome
    requires op { op_of word ≡ 2 }
    requires op3 { op3_of word ≡ 0x30 }
    ensures { IsRunBeside word regs.old regs.new result }
{
    if rd(word) != 0 {
        return OUTSIDE;
    }
    let Some(y) = second(word, regs) else {
        return OUTSIDE;
    };
    regs.y = first(word, regs) ^ y;
    advance(regs);
    Outcome::Done
}

// JMPL.
#[inline(always)]
fn jump_to(word: u32, regs: &mut Regs) -> Outcome
    requires op { op_of word ≡ 2 }
    requires op3 { op3_of word ≡ 0x38 }
    ensures { IsRunBeside word regs.old regs.new result }
{
    let Some(y) = second(word, regs) else {
        return OUTSIDE;
    };
    jump(rd(word), first(word, regs).wrapping_add(y), regs)
}

// Ticc.
#[inline(always)]
fn trap(word: u32, regs: &mut Regs) -> Outcome
    requires op { op_of word ≡ 2 }
    requires op3 { op3_of word ≡ 0x3a }
    ensures { IsRunBeside word regs.old regs.new result }
{
    if annul(word) {
        return OUTSIDE;
    }
    let Some(y) = trap_number(word, regs) else {
        return OUTSIDE;
    };
    trap_on(cond(word), first(word, regs).wrapping_add(y), regs)
}

// Loads, stores, LDSTUB and SWAP.
#[inline(always)]
fn access<P: Port>(op3: u8, word: u32, regs: &mut Regs, port: &mut P) -> Outcome
    requires op { op_of word ≡ 3 }
    requires op3 { op3_of word ≡ op3 }
    requires row { IsTrue (is_in accesses op3) }
    ensures run { IsRunOf word (P.lines port.old) (seen regs.old (P.copy port.old) (P.calls port.old)) (seen regs.new (P.copy port.new) (P.calls port.new)) result }
    ensures sizes { (P.lines port.new ≡ P.lines port.old) × (P.places port.new ≡ P.places port.old) }
{
    let Some(y) = second(word, regs) else {
        return OUTSIDE;
    };
    let address = first(word, regs).wrapping_add(y);
    match line_at(op3, address, port.lines()) {
        Ok(line) => {
            if is_load(op3) {
                read(op3, rd(word), address, line, regs, port)
            } else {
                write(op3, rd(word), address, line, regs, port)
            }
        }
        Err(tt) => Outcome::Trap { tt },
    }
}

// A load from a line.
#[inline(always)]
fn read<P: Port>(
    op3: u8,
    rd: u8,
    address: u32,
    line: LineNo,
    regs: &mut Regs,
    port: &mut P,
) -> Outcome
    requires load { IsTrue (is_load op3) }
    requires rd { rd < 32 }
    requires aligned { IsAligned (width_of op3) address }
    ensures run { IsRunOn (granted Mode.Read (P.copy port.old line.0)) line Mode.Read (accessed op3 rd address regs.old) (seen regs.old (P.copy port.old) (P.calls port.old)) (seen regs.new (P.copy port.new) (P.calls port.new)) result }
    ensures sizes { (P.lines port.new ≡ P.lines port.old) × (P.places port.new ≡ P.places port.old) }
{
    let mode = Mode::Read;
    let Some(value) = port.grab(line, mode) else {
        return Outcome::Miss { line, mode };
    };
    assign(rd, load(op3, address, &value), regs)
}

// A store, LDSTUB or SWAP on a line.
#[inline(always)]
fn write<P: Port>(
    op3: u8,
    rd: u8,
    address: u32,
    line: LineNo,
    regs: &mut Regs,
    port: &mut P,
) -> Outcome
    requires no_load { IsFalse (is_load op3) }
    requires rd { rd < 32 }
    requires aligned { IsAligned (width_of op3) address }
    ensures run { IsRunOn (granted Mode.Write (P.copy port.old line.0)) line Mode.Write (accessed op3 rd address regs.old) (seen regs.old (P.copy port.old) (P.calls port.old)) (seen regs.new (P.copy port.new) (P.calls port.new)) result }
    ensures sizes { (P.lines port.new ≡ P.lines port.old) × (P.places port.new ≡ P.places port.old) }
{
    let mode = Mode::Write;
    let Some(value) = port.grab(line, mode) else {
        return Outcome::Miss { line, mode };
    };
    port.put(line, store(op3, address, regs.get(rd), &value));
    match op3 {
        0x0d | 0x0f => assign(rd, load(op3, address, &value), regs),
        _ => {
            advance(regs);
            Outcome::Done
        }
    }
}
