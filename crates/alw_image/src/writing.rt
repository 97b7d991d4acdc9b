ghost use Rattle.std.specs.Prelude.{◌≡◌, ◌++◌, [], OnOk, IfOk};
ghost use Rattle.std.specs.Int.{w16, w32, to_be_bytes};
ghost use Rattle.std.specs.List.{flat_map};
ghost use Rattle.alw_image.specs.Images.{spelling, version_of, header, words, data_line, start_bytes};

use crate::images::Image;
use crate::parts::Parts;
use alw_num::{Bytes, Line, LineNo, NoMemory, NodeNo};
use std::alloc::Global;

/// The one spelling of an image: version 1 where it has at most 8 columns and rows, and else version
/// 2. All numbers are big-endian.
pub fn write_image(alloc: Global, image: &Image) -> Result<Bytes, NoMemory>
    ensures { IfOk result (λ bytes. bytes ≡ spelling image.now) }
{
    let mut out = Vec::new(alloc);
    put_parts(&mut out, image.parts())?;
    Ok(Bytes::from(out))
}

// All parts of an image.
#[tactic(auto, unfolding(crate::specs::Images::spelling))]
fn put_parts(out: &mut Vec<u8>, parts: &Parts) -> Result<(), NoMemory>
    requires { out.old.items ≡ [] }
    ensures { OnOk result (out.new.items ≡ spelling parts.now) }
{
    put_header(out, parts)?;
    put_words(out, parts.code.members())?;
    put_bodies(out, parts.bodies.members())?;
    put_starts(out, parts.starts.members())?;
    put_words(out, parts.always.members())?;
    Ok(())
}

// The 28 bytes before the code.
fn put_header(out: &mut Vec<u8>, parts: &Parts) -> Result<(), NoMemory>
    requires { out.old.items ≡ [] }
    ensures { OnOk result (out.new.items ≡ header parts.now) }
{
    let version = if parts.width <= 8 && parts.height <= 8 {
        1
    } else {
        2
    };
    out.extend_from_slice(&[0x41, 0x4c, 0x45, 0x57])?;
    put_half(out, version)?;
    out.extend_from_slice(&[parts.width, parts.height, parts.contexts, 0])?;
    put_half(out, parts.per_node)?;
    put_word(out, parts.code.len())?;
    put_word(out, parts.bodies.len())?;
    put_word(out, parts.starts.len())?;
    put_word(out, parts.always.len())?;
    Ok(())
}

// Words, four bytes each.
fn put_words(out: &mut Vec<u8>, list: &[u32]) -> Result<(), NoMemory>
    ensures { OnOk result (out.new.items ≡ out.old.items ++ words list.now) }
{
    for word in list {
        put_word(out, *word)?;
    }
    Ok(())
}

// Data lines.
fn put_bodies(out: &mut Vec<u8>, bodies: &[(LineNo, Line)]) -> Result<(), NoMemory>
    ensures { OnOk result (out.new.items ≡ out.old.items ++ flat_map data_line bodies.now) }
{
    for body in bodies {
        put_body(out, body)?;
    }
    Ok(())
}

// A data line: its number and its 16 bytes.
fn put_body(out: &mut Vec<u8>, body: &(LineNo, Line)) -> Result<(), NoMemory>
    ensures { OnOk result (out.new.items ≡ out.old.items ++ data_line body.now) }
{
    put_word(out, body.0.0)?;
    put_word(out, body.1.a)?;
    put_word(out, body.1.b)?;
    put_word(out, body.1.c)?;
    put_word(out, body.1.d)?;
    Ok(())
}

// Starts.
fn put_starts(out: &mut Vec<u8>, starts: &[(NodeNo, u8, u32)]) -> Result<(), NoMemory>
    ensures { OnOk result (out.new.items ≡ out.old.items ++ flat_map start_bytes starts.now) }
{
    for start in starts {
        put_start(out, start)?;
    }
    Ok(())
}

// A start: node, slot, a zero byte and the address.
fn put_start(out: &mut Vec<u8>, start: &(NodeNo, u8, u32)) -> Result<(), NoMemory>
    ensures { OnOk result (out.new.items ≡ out.old.items ++ start_bytes start.now) }
{
    put_half(out, start.0.0)?;
    out.extend_from_slice(&[start.1, 0])?;
    put_word(out, start.2)?;
    Ok(())
}

// Four bytes.
fn put_word(out: &mut Vec<u8>, word: u32) -> Result<(), NoMemory>
    ensures { OnOk result (out.new.items ≡ out.old.items ++ to_be_bytes w32 word) }
{
    out.extend_from_slice(&word.to_be_bytes())?;
    Ok(())
}

// Two bytes.
fn put_half(out: &mut Vec<u8>, half: u16) -> Result<(), NoMemory>
    ensures { OnOk result (out.new.items ≡ out.old.items ++ to_be_bytes w16 half) }
{
    out.extend_from_slice(&half.to_be_bytes())?;
    Ok(())
}
