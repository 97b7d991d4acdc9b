ghost use Rattle.std.specs.Prelude.{◌≡◌, ◌++◌, length, take, drop, OnOk};
ghost use Rattle.std.specs.List.{flat_map};
ghost use Rattle.alw_trace.specs.Texts.{byte_digits, hex_line, hex_lines, line_number, image_text};

use alw_num::NoMemory;
use alw_text::{Text, digit_of, put_number};

// Bytes to a line.
const ROW: usize = 32;

/// The bytes of an image, behind their number.
#[tactic(auto, unfolding(crate::specs::Texts::image_text))]
pub fn put_bytes(text: &mut Text, bytes: &[u8]) -> Result<(), NoMemory>
    ensures { OnOk result (text.new ≡ text.old ++ image_text bytes.now) }
{
    put_number(text, b"image ", bytes.len() as u64)?;
    text.put(b"\n")?;
    put_rows(text, bytes)
}

// Bytes in lines of 32.
fn put_rows(text: &mut Text, bytes: &[u8]) -> Result<(), NoMemory>
    ensures { OnOk result (text.new ≡ text.old ++ hex_lines (line_number (length bytes.now)) bytes.now) }
{
    let mut rest = bytes;
    while !rest.is_empty() {
        let (row, after) = first_row(rest);
        put_row(text, row)?;
        rest = after;
    }
    Ok(())
}

// The bytes of the first line, and what follows them.
fn first_row(bytes: &[u8]) -> (&[u8], &[u8])
    ensures row { result.0.now ≡ take 32 bytes.now }
    ensures behind { result.1.now ≡ drop 32 bytes.now }
{
    bytes.split_at(bytes.len().min(ROW))
}

// A line of bytes.
fn put_row(text: &mut Text, row: &[u8]) -> Result<(), NoMemory>
    ensures { OnOk result (text.new ≡ text.old ++ hex_line row.now) }
{
    put_digits(text, row)?;
    text.put(b"\n")?;
    Ok(())
}

fn put_digits(text: &mut Text, row: &[u8]) -> Result<(), NoMemory>
    ensures { OnOk result (text.new ≡ text.old ++ flat_map byte_digits row.now) }
{
    for byte in row {
        put_byte(text, *byte)?;
    }
    Ok(())
}

// The two digits of a byte.
fn put_byte(text: &mut Text, byte: u8) -> Result<(), NoMemory>
    ensures { OnOk result (text.new ≡ text.old ++ byte_digits byte) }
{
    let byte = u32::from(byte);
    text.put(&[digit_of(byte / 16), digit_of(byte % 16)])
}
