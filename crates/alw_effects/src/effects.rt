ghost use Rattle.std.specs.Prelude.{◌≡◌, ◌<◌, ◌++◌, OnOk, IfSome};
ghost use Rattle.sparc_table.specs.Table.{Fits};
ghost use Rattle.alw_effects.specs.Before.{IsAlignedIn};
ghost use Rattle.alw_effects.specs.Effects.{written_by, written_text, goes_at_once, control_text, done_text};

use crate::accesses::put_moved;
use crate::before::SlotBefore;
use crate::changes::put_changed;
use crate::pieces::{put_sets, put_taken};
use alw_num::{Line, NoMemory};
use alw_text::Text;
use sparc_table::{Instr, Regs};
use sparc_text::is_store;

/// What an instruction that is done did, by what was read before, and the registers and the line's bytes now.
pub fn put_done(
    text: &mut Text,
    instr: &Instr,
    before: &SlotBefore,
    regs: &Regs,
    body: &Line,
) -> Result<(), NoMemory>
    requires fits { Fits instr.now }
    requires aligned { IsAlignedIn before.now.need instr.now before.now.regs }
    ensures { OnOk result (text.new ≡ text.old ++ done_text before.now.need instr.now before.now.regs regs.now before.now.body body.now) }
{
    put_written(text, written(instr), regs)?;
    put_changed(text, &before.regs, regs)?;
    put_moved(text, instr, before, body)?;
    put_control(text, goes_at_once(instr), &before.regs, regs)?;
    Ok(())
}

// The register that an instruction writes.
fn written(instr: &Instr) -> Option<u8>
    requires { Fits instr.now }
    ensures register { result ≡ written_by instr.now }
    ensures range { IfSome result (λ register. register < 32) }
{
    match *instr {
        Instr::Call { .. } => Some(15),
        Instr::Sethi { rd, .. }
        | Instr::Arith { rd, .. }
        | Instr::Shift { rd, .. }
        | Instr::ReadY { rd }
        | Instr::Jmpl { rd, .. } => Some(rd),
        Instr::Memory { op3, rd, .. } if !is_store(op3) => Some(rd),
        _ => None,
    }
}

// The word in a register behind the turn: register 0 is never written.
fn put_written(text: &mut Text, register: Option<u8>, regs: &Regs) -> Result<(), NoMemory>
    requires { IfSome register (λ r. r < 32) }
    ensures { OnOk result (text.new ≡ text.old ++ written_text register regs.now) }
{
    match register {
        Some(r) if r != 0 => put_sets(text, r, regs.get(r)),
        _ => Ok(()),
    }
}

// Is an instruction `ba,a`, which goes to its target at once?
fn goes_at_once(instr: &Instr) -> bool
    ensures { result ≡ goes_at_once instr.now }
{
    match *instr {
        Instr::Branch { annul, cond, .. } => annul && cond == 8,
        _ => false,
    }
}

// Where control went elsewhere.
fn put_control(text: &mut Text, at_once: bool, before: &Regs, after: &Regs) -> Result<(), NoMemory>
    ensures { OnOk result (text.new ≡ text.old ++ control_text at_once before.now after.now) }
{
    if after.pc == before.npc {
        if after.npc == before.npc.wrapping_add(4) {
            Ok(())
        } else {
            put_taken(text, after.npc)
        }
    } else if at_once {
        put_taken(text, after.pc)
    } else {
        text.put(b" annuls")
    }
}
