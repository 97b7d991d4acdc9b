ghost use Rattle.std.specs.Prelude.{◌≡◌, ◌<◌, ◌≤◌, ◌*◌, ◌^◌, ◌++◌, take, drop, length, IfSome, IfNone, IfOk, ⊤};
ghost use Rattle.std.specs.Int.{w32, to_be_bytes};
ghost use Rattle.alw_image.specs.Images.{data_line, start_bytes};
ghost use Rattle.alw_image.specs.Faults.{word_of, body_of_bytes, start_of_bytes};
ghost use Rattle.alw_image.specs.TableReads.{IsMember, TableIsWhole, IsAnyMember, IsSlot};

use crate::parts::{Bodies, Starts};
use crate::readers::{byte_at, half_at, word_at};
use alw_num::{Line, LineNo, NoMemory, NodeNo, Sequence};
use std::alloc::Global;

// The words of a program, or the numbers of lines, that bytes spell.
pub fn read_words(alloc: Global, bytes: &[u8], count: u32) -> Result<Sequence<u32>, NoMemory>
    requires { length bytes.now ≡ 4 * count }
    ensures { IfOk result (λ words. TableIsWhole word_of (to_be_bytes w32) IsAnyMember 4 count bytes.now words) }
{
    let mut words = Sequence::empty(alloc);
    let mut rest = bytes;
    while let Some((word, after)) = word_at(rest) {
        words.push(word)?;
        rest = after;
    }
    Ok(words)
}

// The data lines that bytes spell.
pub fn read_bodies(alloc: Global, bytes: &[u8], count: u32) -> Result<Bodies, NoMemory>
    requires { length bytes.now ≡ 20 * count }
    ensures { IfOk result (λ bodies. TableIsWhole body_of_bytes data_line IsAnyMember 20 count bytes.now bodies) }
{
    let mut bodies = Bodies::empty(alloc);
    let mut rest = bytes;
    while let Some((body, after)) = body_at(rest) {
        bodies.push(body)?;
        rest = after;
    }
    Ok(bodies)
}

// The starts that bytes spell.
pub fn read_starts(alloc: Global, bytes: &[u8], count: u32) -> Result<Starts, NoMemory>
    requires { length bytes.now ≡ 8 * count }
    ensures { IfOk result (λ starts. TableIsWhole start_of_bytes start_bytes IsSlot 8 count bytes.now starts) }
{
    let mut starts = Starts::empty(alloc);
    let mut rest = bytes;
    while let Some((start, after)) = start_at(rest) {
        starts.push(start)?;
        rest = after;
    }
    Ok(starts)
}

// The data line in the first 20 bytes, and what follows them. None exactly where there are fewer.
fn body_at(bytes: &[u8]) -> Option<((LineNo, Line), &[u8])>
    ensures found { IfSome result (λ read. IsMember body_of_bytes data_line IsAnyMember 20 bytes.now read.0 read.1.now) }
    ensures none { IfNone result (length bytes.now < 20) }
{
    let (number, rest) = word_at(bytes)?;
    let (a, rest) = word_at(rest)?;
    let (b, rest) = word_at(rest)?;
    let (c, rest) = word_at(rest)?;
    let (d, rest) = word_at(rest)?;
    Some(((LineNo(number), Line { a, b, c, d }), rest))
}

// The start in the first 8 bytes, and what follows them. None exactly where there are fewer.
fn start_at(bytes: &[u8]) -> Option<((NodeNo, u8, u32), &[u8])>
    ensures found { IfSome result (λ read. IsMember start_of_bytes start_bytes IsSlot 8 bytes.now read.0 read.1.now) }
    ensures none { IfNone result (length bytes.now < 8) }
{
    let (node, rest) = half_at(bytes)?;
    let (slot, rest) = byte_at(rest)?;
    let (blank, rest) = byte_at(rest)?;
    let (address, rest) = word_at(rest)?;
    let slot = if blank == 0 { slot } else { 255 };
    Some(((NodeNo(node), slot, address), rest))
}
