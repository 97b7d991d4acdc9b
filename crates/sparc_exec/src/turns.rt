ghost use Rattle.std.specs.Prelude.{◌≡◌, ◌↔◌, IfOk};
ghost use Rattle.alw_num.specs.declared.addresses.LineNo.{LineNo};
ghost use Rattle.alw_num.specs.declared.states.Mode.{Mode};
ghost use Rattle.sparc_table.specs.Table.{Fits};
ghost use Rattle.sparc_table.specs.Access.{width_of, mode_of, needed};
ghost use Rattle.sparc_table.specs.Meaning.{need, OutcomeIsStill};
ghost use Rattle.sparc_table.specs.Turns.{fetched, run_of, need_of, turn_of};
ghost use Rattle.sparc_exec.specs.Runs.{Same, seen, IsRunWith, CopyIsMissing};

use crate::accesses::{is_load, line_at};
use crate::arithmetic::address;
use crate::ports::Port;
use crate::words::run_word;
use alw_num::Mode;
use sparc_table::{Instr, Need, Outcome, Regs, decode, encode};

/// Runs one turn: fetches the word at PC, and runs it over a port.
///
/// `code` holds the words from address 0 on. A PC at or past the end of the code traps with type 01, a
/// word outside the instruction table with type 02 (SPARC V8 manual, table 7-1).
pub fn turn<P: Port>(code: &[u32], regs: &mut Regs, port: &mut P) -> Outcome
    ensures run { IsRunWith (need_of code.now regs.old (P.lines port.old)) (turn_of code.now regs.old (P.lines port.old)) (seen regs.old (P.copy port.old) (P.calls port.old)) (seen regs.new (P.copy port.new) (P.calls port.new)) result }
    ensures missed { (line : LineNo) → (mode : Mode) → (result ≡ Outcome.Miss line mode) ↔ CopyIsMissing (need_of code.now regs.old (P.lines port.old)) (P.copy port.old) line mode }
    ensures still { OutcomeIsStill result → (regs.new ≡ regs.old) × Same (P.copy port.old) (P.copy port.new) }
    ensures sizes { (P.lines port.new ≡ P.lines port.old) × (P.places port.new ≡ P.places port.old) }
{
    match code.get((regs.pc / 4) as usize) {
        Some(word) => run_word(*word, regs, port),
        None => Outcome::Trap { tt: 0x01 },
    }
}

/// What the turn of these registers needs, where shared data has this number of lines.
#[tactic(auto, unfolding(sparc_table::specs::Turns::need_of, sparc_table::specs::Meaning::need))]
pub fn need(code: &[u32], regs: &Regs, lines: u32) -> Need
    ensures { result ≡ need_of code.now regs.now lines }
{
    match fetch(code, regs.pc) {
        Ok(
            Instr::Memory {
                op3,
                rs1,
                operand,
                ..
            },
        ) => need_at(op3, address(rs1, operand, regs), lines),
        Ok(_) => Need::Nothing,
        Err(tt) => Need::Trap { tt },
    }
}

// What an access to an address needs.
fn need_at(op3: u8, address: u32, lines: u32) -> Need
    ensures { result ≡ needed address (width_of op3) (mode_of op3) lines }
{
    match line_at(op3, address, lines) {
        Ok(line) => Need::Copy {
            line,
            mode: mode_for(op3),
        },
        Err(tt) => Need::Trap { tt },
    }
}

// The mode that an access asks for.
fn mode_for(op3: u8) -> Mode
    ensures { result ≡ mode_of op3 }
{
    if is_load(op3) {
        Mode::Read
    } else {
        Mode::Write
    }
}

/// The instruction at an address, or the type of the trap that fetching it gives.
#[tactic(auto, unfolding(sparc_table::specs::Turns::fetched))]
#[inline(always)]
pub fn fetch(code: &[u32], pc: u32) -> Result<Instr, u8>
    ensures found { result ≡ fetched code.now pc }
    ensures fits { IfOk result (λ instr. Fits instr) }
{
    let Some(&word) = code.get((pc / 4) as usize) else {
        return Err(0x01);
    };
    decode(word).ok_or(0x02)
}

/// Runs one instruction over a port: its meaning, on the copy of the line that it needs.
///
/// Without that copy the outcome is Miss. On Miss, Halt and Trap the registers and all copies stay.
pub fn run_one<P: Port>(instr: &Instr, regs: &mut Regs, port: &mut P) -> Outcome
    requires { Fits instr.now }
    ensures run { IsRunWith (need instr.now regs.old (P.lines port.old)) (run_of instr.now regs.old (P.lines port.old)) (seen regs.old (P.copy port.old) (P.calls port.old)) (seen regs.new (P.copy port.new) (P.calls port.new)) result }
    ensures missed { (line : LineNo) → (mode : Mode) → (result ≡ Outcome.Miss line mode) ↔ CopyIsMissing (need instr.now regs.old (P.lines port.old)) (P.copy port.old) line mode }
    ensures still { OutcomeIsStill result → (regs.new ≡ regs.old) × Same (P.copy port.old) (P.copy port.new) }
    ensures sizes { (P.lines port.new ≡ P.lines port.old) × (P.places port.new ≡ P.places port.old) }
{
    run_word(encode(instr), regs, port)
}
