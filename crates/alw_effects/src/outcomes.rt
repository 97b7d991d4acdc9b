ghost use Rattle.std.specs.Prelude.{◌≡◌, ◌++◌, OnOk};
ghost use Rattle.sparc_table.specs.Turns.{fetched};
ghost use Rattle.alw_effects.specs.Before.{IsBeforeTurn};
ghost use Rattle.alw_effects.specs.Effects.{effect_text, fetched_text};

use crate::before::SlotBefore;
use crate::effects::put_done;
use crate::pieces::{put_prints, put_traps};
use alw_num::{Line, NoMemory};
use alw_text::Text;
use sparc_exec::fetch;
use sparc_table::{Outcome, Regs};

/// What a turn did, by its outcome: told from what was read before it, and the registers and the bytes of the line
/// that it needs after it. A miss is told as nothing.
pub fn put_effect(
    text: &mut Text,
    code: &[u32],
    before: &SlotBefore,
    outcome: Outcome,
    regs: &Regs,
    body: &Line,
) -> Result<(), NoMemory>
    requires { IsBeforeTurn code.now before.now }
    ensures { OnOk result (text.new ≡ text.old ++ effect_text code.now before.now outcome regs.now body.now) }
{
    match outcome {
        Outcome::Done => put_fetched(text, code, before, regs, body),
        Outcome::Out { word } => put_prints(text, word),
        Outcome::Halt => text.put(b" halts"),
        Outcome::Trap { tt } => put_traps(text, tt),
        Outcome::Miss { .. } => Ok(()),
    }
}

// A turn that is done, of the instruction that was fetched.
fn put_fetched(
    text: &mut Text,
    code: &[u32],
    before: &SlotBefore,
    regs: &Regs,
    body: &Line,
) -> Result<(), NoMemory>
    requires { IsBeforeTurn code.now before.now }
    ensures { OnOk result (text.new ≡ text.old ++ fetched_text (fetched code.now before.now.regs.pc) before.now.need before.now.regs regs.now before.now.body body.now) }
{
    match fetch(code, before.regs.pc) {
        Ok(instr) => put_done(text, &instr, before, regs, body),
        Err(_) => Ok(()),
    }
}
