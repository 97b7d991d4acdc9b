ghost use Rattle.std.specs.Prelude.{◌≡◌, ◌++◌, OnOk};
ghost use Rattle.alw_report.specs.Names.{mode_text};
ghost use Rattle.alw_turns.specs.Pieces.{slot_text, ends_text};
ghost use Rattle.alw_turns.specs.Turns.{misses_text, opens_text};

use alw_effects::put_place;
use alw_num::{LineNo, Mode, NoMemory};
use alw_report::mode_name;
use alw_text::{Spell, Text, put_number};
use sparc_table::Regs;

/// The slot that runs, its PC and the statement there.
#[tactic(auto, unfolding(crate::specs::Pieces::slot_text))]
pub fn put_slot(text: &mut Text, code: &[u32], slot: u8, regs: &Regs) -> Result<(), NoMemory>
    ensures { OnOk result (text.new ≡ text.old ++ slot_text code.now slot regs.now) }
{
    put_number(text, b" slot ", u64::from(slot))?;
    put_place(text, code, regs.pc)?;
    Ok(())
}

/// A line that has no copy, and whether the slot opens a transaction on it or waits for one.
#[tactic(auto, unfolding(crate::specs::Turns::misses_text))]
pub fn put_misses(text: &mut Text, line: LineNo, mode: Mode, waits: bool) -> Result<(), NoMemory>
    ensures { OnOk result (text.new ≡ text.old ++ misses_text line.0 (mode_text mode) waits) }
{
    put_number(text, b" misses ", u64::from(line.0))?;
    text.put(b" ")?;
    text.put(mode_name(mode).as_bytes())?;
    put_opens(text, waits)?;
    Ok(())
}

fn put_opens(text: &mut Text, waits: bool) -> Result<(), NoMemory>
    ensures { OnOk result (text.new ≡ text.old ++ opens_text waits) }
{
    if waits {
        text.put(b" waits")
    } else {
        text.put(b" opens")
    }
}

/// The line whose hold ends, if there is one.
pub fn put_ends(text: &mut Text, hold: Option<u32>) -> Result<(), NoMemory>
    ensures { OnOk result (text.new ≡ text.old ++ ends_text hold) }
{
    match hold {
        Some(line) => put_number(text, b" ends-hold ", u64::from(line)),
        None => Ok(()),
    }
}
