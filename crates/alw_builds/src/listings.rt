ghost use Rattle.std.specs.Prelude.{◌≡◌, ◌≤◌, ◌++◌, length, OnOk, IfOk};
ghost use Rattle.alw_builds.specs.Listing.{listing_line, listing_from};

use alw_num::NoMemory;
use alw_text::{Spell, Text};
use std::alloc::Global;

/// The listing of code words with their source lines.
pub fn listing(alloc: Global, words: &[u32], lines: &[u32]) -> Result<Text, NoMemory>
    requires few { length words.now ≤ 65536 }
    requires same { length lines.now ≡ length words.now }
    ensures { IfOk result (λ text. text ≡ listing_from 0 words.now lines.now) }
{
    let mut text = Text::empty(alloc);
    for i in 0..words.len() {
        put_line(&mut text, 4 * i as u32, words[i], lines[i])?;
    }
    Ok(text)
}

// A code word: its address, the word and its source line.
fn put_line(text: &mut Text, address: u32, word: u32, line: u32) -> Result<(), NoMemory>
    ensures { OnOk result (text.new ≡ text.old ++ listing_line address word line) }
{
    text.put_hex_digits(address)?;
    text.put(b" ")?;
    text.put_hex_digits(word)?;
    text.put(b" ")?;
    text.put_decimal(u64::from(line))?;
    text.put(b"\n")?;
    Ok(())
}
