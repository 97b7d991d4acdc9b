ghost use Rattle.std.specs.Prelude.{◌≡◌, ◌++◌, OnOk};
ghost use Rattle.alw_effects.specs.Effects.{codes_differ, changed_codes_text, changed_y_text, changed_text};

use crate::pieces::{put_codes, put_y};
use alw_num::NoMemory;
use alw_text::Text;
use sparc_table::Regs;

/// The condition codes and Y, each where it isn't what it was.
pub fn put_changed(text: &mut Text, before: &Regs, after: &Regs) -> Result<(), NoMemory>
    ensures { OnOk result (text.new ≡ text.old ++ changed_text before.now after.now) }
{
    put_changed_codes(text, before, after)?;
    put_changed_y(text, before, after)?;
    Ok(())
}

// The codes behind the turn, where they aren't those before it.
fn put_changed_codes(text: &mut Text, before: &Regs, after: &Regs) -> Result<(), NoMemory>
    ensures { OnOk result (text.new ≡ text.old ++ changed_codes_text before.now after.now) }
{
    if codes_differ(before, after) {
        put_codes(text, after)
    } else {
        Ok(())
    }
}

// A condition code isn't what it was.
fn codes_differ(before: &Regs, after: &Regs) -> bool
    ensures { result ≡ codes_differ before.now after.now }
{
    before.n != after.n || before.z != after.z || before.v != after.v || before.c != after.c
}

// Y behind the turn, where it isn't that before it.
fn put_changed_y(text: &mut Text, before: &Regs, after: &Regs) -> Result<(), NoMemory>
    ensures { OnOk result (text.new ≡ text.old ++ changed_y_text before.now after.now) }
{
    if before.y == after.y {
        Ok(())
    } else {
        put_y(text, after.y)
    }
}
