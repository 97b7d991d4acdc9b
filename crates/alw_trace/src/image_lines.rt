ghost use Rattle.std.specs.Prelude.{◌≡◌, ◌≤◌, ◌<◌, ◌^◌, ◌+◌, length, IfOk, IfErr};
ghost use Rattle.alw_trace.specs.Texts.{hex_line};
ghost use Rattle.alw_trace.specs.Lines.{IsFaultInImage, IsFaultInRows, IsRow, Lacks, behind_image};
ghost use Rattle.alw_trace.specs.Raw.{AreRowsRead, IsImageRead, IsRowRead, IsSyntaxFault};

use crate::faults::TextErr;
use crate::readers::{behind, byte_at, number_behind};
use alw_num::Bytes;
use std::alloc::Global;

// Bytes to a line.
const ROW: u64 = 32;

// The bytes of an image, behind their number in the second line of a text, and what follows them.
pub fn image_at(alloc: Global, text: &[u8]) -> Result<(Bytes, &[u8]), TextErr>
    ensures ok { IfOk result (λ read. IsImageRead text.now read.0 read.1.now) }
    ensures err { IfErr result (IsSyntaxFault (IsFaultInImage text.now)) }
{
    match number_behind(text, b"image ", b'\n') {
        Some((count, rest)) => rows_at(alloc, rest, count),
        None => Err(TextErr::Syntax { line: 2 }),
    }
}

// So many bytes, 32 to a line, of which the first line is the third of a text, and what follows them.
fn rows_at(alloc: Global, text: &[u8], count: u64) -> Result<(Bytes, &[u8]), TextErr>
    ensures ok { IfOk result (λ read. AreRowsRead count text.now read.0 read.1.now) }
    ensures err { IfErr result (IsSyntaxFault (IsFaultInRows count 3 text.now)) }
{
    let mut image = Bytes::empty(alloc);
    let mut rest = text;
    while (image.len() as u64) < count {
        let read = image.len() as u64;
        rest = put_row(&mut image, rest, (count - read).min(ROW), 3 + read / ROW)?;
    }
    Ok((image, rest))
}

// Appends the bytes of the first line, so many, and answers what follows it.
fn put_row<'a>(
    image: &mut Bytes,
    text: &'a [u8],
    count: u64,
    line: u64,
) -> Result<&'a [u8], TextErr>
    ensures ok { IfOk result (λ rest. IsRowRead count image.old image.new text.now rest.now) }
    ensures err { IfErr result (IsSyntaxFault (λ fault. (fault ≡ line) × Lacks (IsRow count) hex_line text.now)) }
{
    let mut rest = text;
    for _place in 0..count {
        let Some((byte, after)) = byte_at(rest) else {
            return Err(TextErr::Syntax { line });
        };
        image.push(byte)?;
        rest = after;
    }
    match behind(rest, b"\n") {
        Some(rest) => Ok(rest),
        None => Err(TextErr::Syntax { line }),
    }
}

// The number of the line behind an image of these bytes.
pub fn line_behind(image: &Bytes) -> u64
    ensures line { result ≡ behind_image image.now }
    ensures range { result < 2 ^ 60 }
{
    3 + (image.len() as u64).div_ceil(ROW)
}
