ghost use Rattle.std.specs.Prelude.{◌≡◌, ◌<◌, ◌++◌, OnOk};
ghost use Rattle.alw_text.specs.Numbers.{hex_byte, hex_word};
ghost use Rattle.alw_effects.specs.Pieces.{stood_text, sets_text, flag_digit, flags_text, codes_text, y_text, moved_text, reads_text, writes_text, taken_text, prints_text, traps_text};

use alw_num::{NoMemory, Width};
use alw_text::{Spell, Text, put_number};
use sparc_table::Regs;
use sparc_text::{put_register, put_statement_at};

/// A PC, and the statement there, each behind a blank: ` pc 0x00000010 ld [%g1], %o0`.
#[tactic(auto, unfolding(crate::specs::Pieces::stood_text))]
pub fn put_place(text: &mut Text, code: &[u32], pc: u32) -> Result<(), NoMemory>
    ensures { OnOk result (text.new ≡ text.old ++ stood_text code.now pc) }
{
    put_word(text, b" pc ", pc)?;
    text.put(b" ")?;
    put_statement_at(text, code, pc)?;
    Ok(())
}

// A word behind its name.
fn put_word(text: &mut Text, name: &[u8], word: u32) -> Result<(), NoMemory>
    ensures { OnOk result (text.new ≡ text.old ++ (name.now ++ hex_word word)) }
{
    text.put(name)?;
    text.put_hex32(word)?;
    Ok(())
}

/// A register with the word that it was given.
#[tactic(auto, unfolding(crate::specs::Pieces::sets_text))]
pub fn put_sets(text: &mut Text, register: u8, word: u32) -> Result<(), NoMemory>
    requires { register < 32 }
    ensures { OnOk result (text.new ≡ text.old ++ sets_text register word) }
{
    text.put(b" sets ")?;
    put_register(text, register)?;
    put_word(text, b" ", word)?;
    Ok(())
}

/// The condition codes.
#[tactic(auto, unfolding(crate::specs::Pieces::codes_text))]
pub fn put_codes(text: &mut Text, regs: &Regs) -> Result<(), NoMemory>
    ensures { OnOk result (text.new ≡ text.old ++ codes_text regs.now) }
{
    text.put(b" codes ")?;
    put_flags(text, regs)?;
    Ok(())
}

// The same without the word.
fn put_flags(text: &mut Text, regs: &Regs) -> Result<(), NoMemory>
    ensures { OnOk result (text.new ≡ text.old ++ flags_text regs.now) }
{
    text.put(&[flag(regs.n), flag(regs.z), flag(regs.v), flag(regs.c)])
}

// A condition code as a digit.
fn flag(set: bool) -> u8
    ensures { result ≡ flag_digit set }
{
    if set { b'1' } else { b'0' }
}

/// Y with the word that it was given.
#[tactic(auto, unfolding(crate::specs::Pieces::y_text))]
pub fn put_y(text: &mut Text, word: u32) -> Result<(), NoMemory>
    ensures { OnOk result (text.new ≡ text.old ++ y_text word) }
{
    put_word(text, b" y ", word)
}

/// Bytes that were read.
#[tactic(auto, unfolding(crate::specs::Pieces::reads_text))]
pub fn put_reads(text: &mut Text, address: u32, width: Width, value: u32) -> Result<(), NoMemory>
    ensures { OnOk result (text.new ≡ text.old ++ reads_text address width value) }
{
    text.put(b" reads ")?;
    put_bytes(text, address, width, value)?;
    Ok(())
}

/// Bytes that were written.
#[tactic(auto, unfolding(crate::specs::Pieces::writes_text))]
pub fn put_writes(text: &mut Text, address: u32, width: Width, value: u32) -> Result<(), NoMemory>
    ensures { OnOk result (text.new ≡ text.old ++ writes_text address width value) }
{
    text.put(b" writes ")?;
    put_bytes(text, address, width, value)?;
    Ok(())
}

// An address, how many bytes from there on, and the number that they spell.
fn put_bytes(text: &mut Text, address: u32, width: Width, value: u32) -> Result<(), NoMemory>
    ensures { OnOk result (text.new ≡ text.old ++ moved_text address width value) }
{
    text.put_hex32(address)?;
    put_number(text, b" ", u64::from(width.bytes()))?;
    put_word(text, b" ", value)?;
    Ok(())
}

/// Where control went.
#[tactic(auto, unfolding(crate::specs::Pieces::taken_text))]
pub fn put_taken(text: &mut Text, target: u32) -> Result<(), NoMemory>
    ensures { OnOk result (text.new ≡ text.old ++ taken_text target) }
{
    put_word(text, b" taken ", target)
}

/// A word that was printed.
#[tactic(auto, unfolding(crate::specs::Pieces::prints_text))]
pub fn put_prints(text: &mut Text, word: u32) -> Result<(), NoMemory>
    ensures { OnOk result (text.new ≡ text.old ++ prints_text word) }
{
    put_word(text, b" prints ", word)
}

/// A trap's type.
#[tactic(auto, unfolding(crate::specs::Pieces::traps_text))]
pub fn put_traps(text: &mut Text, tt: u8) -> Result<(), NoMemory>
    ensures { OnOk result (text.new ≡ text.old ++ traps_text tt) }
{
    put_byte(text, b" traps ", tt)
}

// A byte behind its name.
fn put_byte(text: &mut Text, name: &[u8], byte: u8) -> Result<(), NoMemory>
    ensures { OnOk result (text.new ≡ text.old ++ (name.now ++ hex_byte byte)) }
{
    text.put(name)?;
    text.put_hex8(byte)?;
    Ok(())
}
