ghost use Rattle.std.specs.Prelude.{◌≡◌, ◌++◌, OnOk};
ghost use Rattle.alw_save.specs.Lines.{spaced_word, body_text};

use alw_num::{Line, NoMemory};
use alw_text::{Spell, Text};

/// A word behind a blank.
pub fn put_word(text: &mut Text, word: u32) -> Result<(), NoMemory>
    ensures { OnOk result (text.new ≡ text.old ++ spaced_word word) }
{
    text.put(b" ")?;
    text.put_hex32(word)?;
    Ok(())
}

/// The four words of a line's bytes, each behind a blank.
#[tactic(auto, unfolding(crate::specs::Lines::body_text))]
pub fn put_body(text: &mut Text, body: &Line) -> Result<(), NoMemory>
    ensures { OnOk result (text.new ≡ text.old ++ body_text body.now) }
{
    put_word(text, body.a)?;
    put_word(text, body.b)?;
    put_word(text, body.c)?;
    put_word(text, body.d)?;
    Ok(())
}
