ghost use Rattle.std.specs.Prelude.{◌≡◌, ◌<◌, ◌%◌, ◌^◌};
ghost use Rattle.sparc_table.specs.Registers.{with_register};
ghost use Rattle.sparc_table.specs.Operands.{sign_extended};
ghost use Rattle.sparc_table.specs.Control.{is_le, is_less, is_leu, holds, next, transfer, transfer_at_once, skip, call_target, branch_target, branched};
ghost use Rattle.sparc_table.specs.Meaning.{jumped, trap_on};

use sparc_table::{Outcome, Regs};

fn is_less(regs: &Regs) -> bool
    ensures { result ≡ is_less regs.now }
{
    regs.n != regs.v
}

fn is_le(regs: &Regs) -> bool
    ensures { result ≡ is_le regs.now }
{
    regs.z || is_less(regs)
}

fn is_leu(regs: &Regs) -> bool
    ensures { result ≡ is_leu regs.now }
{
    regs.c || regs.z
}

// Does a condition hold?
#[tactic(auto, unfolding(sparc_table::specs::Control::holds))]
#[inline(always)]
pub fn holds(condition: u8, regs: &Regs) -> bool
    requires { condition < 16 }
    ensures { result ≡ holds condition regs.now }
{
    match condition {
        0 => false,
        1 => regs.z,
        2 => is_le(regs),
        3 => is_less(regs),
        4 => is_leu(regs),
        5 => regs.c,
        6 => regs.n,
        7 => regs.v,
        8 => true,
        9 => !regs.z,
        10 => !is_le(regs),
        11 => !is_less(regs),
        12 => !is_leu(regs),
        13 => !regs.c,
        14 => !regs.n,
        _ => !regs.v,
    }
}

// The normal way on.
pub fn advance(regs: &mut Regs)
    ensures { regs.new ≡ next regs.old }
{
    regs.pc = regs.npc;
    regs.npc = regs.npc.wrapping_add(4);
}

// A delayed transfer.
fn transfer(target: u32, regs: &mut Regs)
    ensures { regs.new ≡ transfer target regs.old }
{
    regs.pc = regs.npc;
    regs.npc = target;
}

// A transfer whose delay slot is annulled.
fn transfer_at_once(target: u32, regs: &mut Regs)
    ensures { regs.new ≡ transfer_at_once target regs.old }
{
    regs.pc = target;
    regs.npc = target.wrapping_add(4);
}

// An untaken branch whose delay slot is annulled.
fn skip(regs: &mut Regs)
    ensures { regs.new ≡ skip regs.old }
{
    regs.pc = regs.npc.wrapping_add(4);
    regs.npc = regs.npc.wrapping_add(8);
}

// 22 bits, sign-extended.
fn sign_extend_22(bits: u32) -> u32
    requires { bits < 4194304 }
    ensures { result ≡ sign_extended 22 bits }
{
    (bits + 0x20_0000 & 0x3f_ffff).wrapping_sub(0x20_0000)
}

// CALL.
#[inline(always)]
pub fn call(disp: u32, regs: &mut Regs) -> Outcome
    requires { disp < 2 ^ 30 }
    ensures done { result ≡ Outcome.Done }
    ensures regs { regs.new ≡ transfer (call_target regs.old.pc disp) (with_register regs.old 15 regs.old.pc) }
{
    let target = regs.pc.wrapping_add(4 * disp);
    regs.set(15, regs.pc);
    transfer(target, regs);
    Outcome::Done
}

// Bicc.
#[inline(always)]
pub fn branch(annul: bool, condition: u8, disp: u32, regs: &mut Regs) -> Outcome
    requires condition { condition < 16 }
    requires disp { disp < 2 ^ 22 }
    ensures done { result ≡ Outcome.Done }
    ensures regs { regs.new ≡ branched annul condition (holds condition regs.old) (branch_target regs.old.pc disp) regs.old }
{
    let target = regs.pc.wrapping_add(sign_extend_22(disp).wrapping_mul(4));
    if holds(condition, regs) {
        if annul && condition == 8 {
            transfer_at_once(target, regs);
        } else {
            transfer(target, regs);
        }
    } else if annul {
        skip(regs);
    } else {
        advance(regs);
    }
    Outcome::Done
}

// JMPL.
#[inline(always)]
pub fn jump(rd: u8, target: u32, regs: &mut Regs) -> Outcome
    requires { rd < 32 }
    ensures { (regs.new, result) ≡ jumped rd target regs.old }
{
    if target % 4 != 0 {
        return Outcome::Trap { tt: 0x07 };
    }
    regs.set(rd, regs.pc);
    transfer(target, regs);
    Outcome::Done
}

// Ticc with this sum of its operands.
#[inline(always)]
pub fn trap_on(condition: u8, sum: u32, regs: &mut Regs) -> Outcome
    requires { condition < 16 }
    ensures { (regs.new, result) ≡ trap_on (holds condition regs.old) (sum % 2 ^ 7) regs.old }
{
    if !holds(condition, regs) {
        advance(regs);
        return Outcome::Done;
    }
    match sum & 0x7f {
        0 => Outcome::Halt,
        1 => {
            advance(regs);
            Outcome::Out { word: regs.get(8) }
        }
        number => Outcome::Trap {
            tt: 0x80 + number as u8,
        },
    }
}
