ghost use Rattle.std.specs.Prelude.{◌≡◌, ◌≤◌, ◌++◌, IfOk, OnOk, length};
ghost use Rattle.std.specs.List.{flat_map};
ghost use Rattle.alw_text.specs.Numbers.{hex_word};
ghost use Rattle.alw_source.specs.Sources.{sizes_text, code_line, code_from, start_line, always_line, place_line, body_line, data_lines, source_of};

use alw_image::{Image, Sizes};
use alw_num::{Line, LineNo, NoMemory, NodeNo};
use alw_text::{Spell, Text, put_number};
use sparc_text::put_statement;
use std::alloc::Global;

/// The source of an image: its sizes, its code, one statement a word, its starts, its Trap-Always lines and
/// its data lines.
#[tactic(auto, unfolding(crate::specs::Sources::source_of))]
pub fn source_of(alloc: Global, image: &Image) -> Result<Text, NoMemory>
    ensures { IfOk result (λ text. text ≡ source_of image.now) }
{
    let parts = image.parts();
    let mut text = Text::empty(alloc);
    put_sizes(&mut text, image.sizes())?;
    put_code(&mut text, parts.code.members())?;
    put_starts(&mut text, parts.starts.members())?;
    put_always(&mut text, parts.always.members())?;
    put_data(&mut text, parts.bodies.members())?;
    Ok(text)
}

// Columns and rows of the mesh, and how many contexts and lines each node has.
fn put_sizes(text: &mut Text, sizes: Sizes) -> Result<(), NoMemory>
    ensures { OnOk result (text.new ≡ text.old ++ sizes_text sizes) }
{
    put_number(text, b".mesh ", u64::from(sizes.width))?;
    put_number(text, b",", u64::from(sizes.height))?;
    put_number(text, b"\n.contexts ", u64::from(sizes.contexts))?;
    put_number(text, b"\n.lines ", u64::from(sizes.per_node))?;
    text.put(b"\n")?;
    Ok(())
}

// A line for each code word, from address 0.
fn put_code(text: &mut Text, code: &[u32]) -> Result<(), NoMemory>
    requires { length code.now ≤ 65536 }
    ensures { OnOk result (text.new ≡ text.old ++ code_from 0 code.now) }
{
    let mut address = 0;
    for word in code {
        put_code_word(text, address, *word)?;
        address += 4;
    }
    Ok(())
}

// A code word: its statement, and as a comment its address and the word.
#[tactic(auto, unfolding(crate::specs::Sources::code_line))]
fn put_code_word(text: &mut Text, address: u32, word: u32) -> Result<(), NoMemory>
    ensures { OnOk result (text.new ≡ text.old ++ code_line address word) }
{
    put_statement(text, address, word)?;
    text.put(b" ! ")?;
    text.put_hex_digits(address)?;
    text.put(b" ")?;
    text.put_hex_digits(word)?;
    text.put(b"\n")?;
    Ok(())
}

// Bytes and a word in hexadecimal.
fn put_word(text: &mut Text, before: &[u8], word: u32) -> Result<(), NoMemory>
    ensures { OnOk result (text.new ≡ text.old ++ (before.now ++ hex_word word)) }
{
    text.put(before)?;
    text.put_hex32(word)?;
    Ok(())
}

// A line for each start.
fn put_starts(text: &mut Text, starts: &[(NodeNo, u8, u32)]) -> Result<(), NoMemory>
    ensures { OnOk result (text.new ≡ text.old ++ flat_map start_line starts.now) }
{
    for start in starts {
        put_start(text, *start)?;
    }
    Ok(())
}

// Where a context starts: node, slot and address.
#[tactic(auto, unfolding(crate::specs::Sources::start_line))]
fn put_start(text: &mut Text, start: (NodeNo, u8, u32)) -> Result<(), NoMemory>
    ensures { OnOk result (text.new ≡ text.old ++ start_line start) }
{
    put_number(text, b".start ", u64::from(start.0.0))?;
    put_number(text, b",", u64::from(start.1))?;
    put_word(text, b",", start.2)?;
    text.put(b"\n")?;
    Ok(())
}

// A line for each Trap-Always line.
fn put_always(text: &mut Text, always: &[u32]) -> Result<(), NoMemory>
    ensures { OnOk result (text.new ≡ text.old ++ flat_map always_line always.now) }
{
    for line in always {
        put_always_line(text, *line)?;
    }
    Ok(())
}

// A line that is Trap-Always.
#[tactic(auto, unfolding(crate::specs::Sources::always_line))]
fn put_always_line(text: &mut Text, line: u32) -> Result<(), NoMemory>
    ensures { OnOk result (text.new ≡ text.old ++ always_line line) }
{
    put_number(text, b".always ", u64::from(line))?;
    text.put(b"\n")?;
    Ok(())
}

// Two lines for each data line.
fn put_data(text: &mut Text, bodies: &[(LineNo, Line)]) -> Result<(), NoMemory>
    ensures { OnOk result (text.new ≡ text.old ++ flat_map data_lines bodies.now) }
{
    for entry in bodies {
        put_data_lines(text, *entry)?;
    }
    Ok(())
}

// A data line: its place and its words.
fn put_data_lines(text: &mut Text, entry: (LineNo, Line)) -> Result<(), NoMemory>
    ensures { OnOk result (text.new ≡ text.old ++ data_lines entry) }
{
    put_place(text, entry.0)?;
    put_body(text, entry.1)?;
    Ok(())
}

// The place of a data line among the bytes of shared data.
#[tactic(auto, unfolding(crate::specs::Sources::place_line))]
fn put_place(text: &mut Text, line: LineNo) -> Result<(), NoMemory>
    ensures { OnOk result (text.new ≡ text.old ++ place_line line.0) }
{
    put_number(text, b".shared ", 16 * u64::from(line.0))?;
    text.put(b"\n")?;
    Ok(())
}

// The four words of a data line.
#[tactic(auto, unfolding(crate::specs::Sources::body_line))]
fn put_body(text: &mut Text, body: Line) -> Result<(), NoMemory>
    ensures { OnOk result (text.new ≡ text.old ++ body_line body) }
{
    put_word(text, b".word ", body.a)?;
    put_word(text, b",", body.b)?;
    put_word(text, b",", body.c)?;
    put_word(text, b",", body.d)?;
    text.put(b"\n")?;
    Ok(())
}
