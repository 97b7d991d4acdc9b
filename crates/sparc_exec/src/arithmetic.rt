ghost use Rattle.std.specs.Prelude.{◌≡◌, ◌<◌, ◌*◌};
ghost use Rattle.std.specs.Int.{from_bool};
ghost use Rattle.sparc_table.specs.Operands.{sign_extended, operand_of, address_of};
ghost use Rattle.sparc_table.specs.Arithmetic.{sign_of, added, subtracted, computed, with_codes, signed_product, multiplied, arithmetic, shifted};
ghost use Rattle.sparc_table.specs.Table.{FitsOperand};
ghost use Rattle.sparc_exec.specs.Rows.{low_of, op3_of_arithmetic, op3_of_shift};

use sparc_table::{Operand, Regs};

/// What arithmetic or logic computes of two words, by its name in the manual (SPARC V8 manual,
/// appendix B.11, B.13 and B.15).
#[derive(Clone, Copy)]
pub enum Operation {
    Add,
    And,
    Or,
    Xor,
    Sub,
    Andn,
    Orn,
    Xnor,
    Addx,
    Subx,
}

/// An instruction of arithmetic or logic.
#[derive(Clone, Copy)]
pub enum Arithmetic {
    /// Leaves the codes.
    Plain(Operation),
    /// Sets the codes.
    Coded(Operation),
    /// The product of two numbers without signs.
    Umul,
    /// The product of two signed numbers.
    Smul,
}

/// A shift: SLL, SRL and SRA.
#[derive(Clone, Copy)]
pub enum Shift {
    Left,
    Right,
    SignedRight,
}

// A result with the overflow and carry codes that come with it.
#[derive(Clone, Copy, PartialEq, Eq)]
struct Computed {
    value: u32,
    overflow: bool,
    carry: bool,
}

// The second operand.
pub fn operand_value(operand: Operand, regs: &Regs) -> u32
    requires { FitsOperand 13 operand }
    ensures { result ≡ operand_of operand regs.now }
{
    match operand {
        Operand::Reg { rs2 } => regs.get(rs2),
        Operand::Imm { bits } => sign_extend_13(u32::from(bits)),
    }
}

// 13 bits, sign-extended.
pub fn sign_extend_13(bits: u32) -> u32
    requires { bits < 8192 }
    ensures { result ≡ sign_extended 13 bits }
{
    (bits + 0x1000 & 0x1fff).wrapping_sub(0x1000)
}

/// The sum of both operands.
pub fn address(rs1: u8, operand: Operand, regs: &Regs) -> u32
    requires rs1 { rs1 < 32 }
    requires operand { FitsOperand 13 operand }
    ensures { result ≡ address_of rs1 operand regs.now }
{
    regs.get(rs1).wrapping_add(operand_value(operand, regs))
}

// Bit 31.
fn is_negative(value: u32) -> bool
    ensures { result ≡ sign_of value }
{
    value >> 31 & 1 == 1
}

fn add(x: u32, y: u32, carry: bool) -> Computed
    ensures value { result.value ≡ (added x y (from_bool carry)).value }
    ensures overflow { result.overflow ≡ (added x y (from_bool carry)).overflow }
    ensures carry { result.carry ≡ (added x y (from_bool carry)).carry }
{
    let total = u64::from(x) + u64::from(y) + u64::from(carry);
    let value = (total & 0xffff_ffff) as u32;
    Computed {
        value,
        overflow: is_negative(x) == is_negative(y) && is_negative(value) != is_negative(x),
        carry: total >= 0x1_0000_0000,
    }
}

fn subtract(x: u32, y: u32, borrow: bool) -> Computed
    ensures value { result.value ≡ (subtracted x y (from_bool borrow)).value }
    ensures overflow { result.overflow ≡ (subtracted x y (from_bool borrow)).overflow }
    ensures carry { result.carry ≡ (subtracted x y (from_bool borrow)).carry }
{
    let taken = u64::from(y) + u64::from(borrow);
    let value = (u64::from(x) + (0x1_0000_0000 - taken) & 0xffff_ffff) as u32;
    Computed {
        value,
        overflow: is_negative(x) != is_negative(y) && is_negative(value) != is_negative(x),
        carry: u64::from(x) < taken,
    }
}

// The value alone.
#[tactic(auto, unfolding(sparc_table::specs::Arithmetic::computed))]
#[inline(always)]
fn value(operation: Operation, x: u32, y: u32, carry: bool) -> u32
    ensures { result ≡ (computed (low_of operation) x y (from_bool carry)).value }
{
    match operation {
        Operation::Add => x.wrapping_add(y),
        Operation::And => x & y,
        Operation::Or => x | y,
        Operation::Xor => x ^ y,
        Operation::Sub => x.wrapping_sub(y),
        Operation::Andn => x & !y,
        Operation::Orn => x | !y,
        Operation::Xnor => x ^ !y,
        Operation::Addx => x.wrapping_add(y).wrapping_add(u32::from(carry)),
        Operation::Subx => x.wrapping_sub(y).wrapping_sub(u32::from(carry)),
    }
}

// The value with its codes. Logic clears overflow and carry.
#[tactic(auto, unfolding(sparc_table::specs::Arithmetic::computed))]
#[inline(always)]
fn compute(operation: Operation, x: u32, y: u32, carry: bool) -> Computed
    ensures value { result.value ≡ (computed (low_of operation) x y (from_bool carry)).value }
    ensures overflow { result.overflow ≡ (computed (low_of operation) x y (from_bool carry)).overflow }
    ensures carry { result.carry ≡ (computed (low_of operation) x y (from_bool carry)).carry }
{
    match operation {
        Operation::Add => add(x, y, false),
        Operation::Sub => subtract(x, y, false),
        Operation::Addx => add(x, y, carry),
        Operation::Subx => subtract(x, y, carry),
        Operation::And
        | Operation::Or
        | Operation::Xor
        | Operation::Andn
        | Operation::Orn
        | Operation::Xnor => Computed {
            value: value(operation, x, y, carry),
            overflow: false,
            carry: false,
        },
    }
}

// The product of two signed words.
fn multiply_signed(x: u32, y: u32) -> u64
    ensures { result ≡ signed_product x y }
{
    (i64::from(x.cast_signed()) * i64::from(y.cast_signed())).cast_unsigned()
}

// rd gets the low word of a product, and Y the high word.
fn assign_product(rd: u8, product: u64, regs: &mut Regs)
    requires { rd < 32 }
    ensures { regs.new ≡ multiplied rd product regs.old }
{
    regs.set(rd, (product & 0xffff_ffff) as u32);
    regs.y = (product >> 32) as u32;
}

// The rows of arithmetic and of the forms that set codes.
#[tactic(auto, unfolding(sparc_table::specs::Arithmetic::arithmetic))]
#[inline(always)]
pub fn calculate(row: Arithmetic, rd: u8, x: u32, y: u32, regs: &mut Regs)
    requires { rd < 32 }
    ensures { regs.new ≡ arithmetic (op3_of_arithmetic row) rd x y regs.old }
{
    match row {
        Arithmetic::Plain(operation) => regs.set(rd, value(operation, x, y, regs.c)),
        Arithmetic::Coded(operation) => {
            let computed = compute(operation, x, y, regs.c);
            set_codes(computed, regs);
            regs.set(rd, computed.value);
        }
        Arithmetic::Umul => assign_product(rd, u64::from(x) * u64::from(y), regs),
        Arithmetic::Smul => assign_product(rd, multiply_signed(x, y), regs),
    }
}

// Sets n, z, v and c.
fn set_codes(computed: Computed, regs: &mut Regs)
    ensures { regs.new ≡ with_codes regs.old (record { value = computed.value; overflow = computed.overflow; carry = computed.carry }) }
{
    regs.n = is_negative(computed.value);
    regs.z = computed.value == 0;
    regs.v = computed.overflow;
    regs.c = computed.carry;
}

// The word that a shift makes.
#[tactic(auto, unfolding(sparc_table::specs::Arithmetic::shifted))]
pub fn shift_word(row: Shift, x: u32, y: u32) -> u32
    ensures { result ≡ shifted (op3_of_shift row) x y }
{
    let count = y & 0x1f;
    match row {
        Shift::Left => x << count,
        Shift::Right => x >> count,
        Shift::SignedRight => (x.cast_signed() >> count).cast_unsigned(),
    }
}
