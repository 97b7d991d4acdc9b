ghost use Rattle.std.specs.Prelude.{◌≡◌, ◌<◌, ◌+◌, ◌-◌, ◌^◌, ◌++◌, IfOk, IfErr, OnOk};
ghost use Rattle.alw_image.specs.Images.{spelling};
ghost use Rattle.alw_trace.specs.Texts.{image_text};
ghost use Rattle.alw_trace.specs.Lines.{IsFrontFault, SaysFront, behind_entries};
ghost use Rattle.alw_trace.specs.Fronts.{IsFrontRead, IsNoFront, front_text};
ghost use Rattle.alw_trace.specs.Raw.{IsSyntaxFault, lines_of};

use crate::entries::put_journal;
use crate::faults::TextErr;
use crate::image_lines::{image_at, line_behind};
use crate::images::put_bytes;
use crate::lines::params_at;
use crate::raw::RawTrace;
use crate::readers::behind;
use crate::reading::trace_of;
use crate::trace_lines::entries_at;
use crate::values::Trace;
use alw_image::{Image, Params, write_image};
use alw_msg::Journal;
use alw_num::NoMemory;
use alw_report::put_params;
use alw_text::Text;
use std::alloc::Global;

/// A trace that was read of a text that goes on behind its last entry, and the number of the line there.
#[derive(Drop)]
pub struct Front {
    pub trace: Trace,
    pub behind: u64,
}

/// The trace of a text that begins with this title and the lines of a trace up to its last entry, and what
/// follows them. It fails as `read_trace` does, by the first of the checks that these lines don't pass.
pub fn read_front<'a>(
    alloc: Global,
    title: &[u8],
    text: &'a [u8],
) -> Result<(Front, &'a [u8]), TextErr>
    ensures ok { IfOk result (λ read. IsFrontRead title.now text.now read.0 read.1.now) }
    ensures err { IfErr result (IsNoFront title.now text.now) }
{
    let (lines, rest) = front_at(alloc, title, text)?;
    let trace = trace_of(alloc, &lines)?;
    let behind = line_behind(&lines.image) + 2 + u64::from(trace.journal.len());
    Ok((Front { trace, behind }, rest))
}

// The number of the line behind the last entry.
pub fn last_line(lines: &RawTrace) -> u64
    ensures line { result ≡ behind_entries (lines_of lines.now) }
    ensures range { result < 2 ^ 64 - 1 }
{
    line_behind(&lines.image) + 2 + lines.entries.len() as u64
}

// What such lines say, in range or not, and what follows them; or the first line that isn't of its form.
pub fn front_at<'a>(
    alloc: Global,
    title: &[u8],
    text: &'a [u8],
) -> Result<(RawTrace, &'a [u8]), TextErr>
    ensures ok { IfOk result (λ read. SaysFront title.now text.now (lines_of read.0) read.1.now) }
    ensures err { IfErr result (IsSyntaxFault (IsFrontFault title.now text.now)) }
{
    let Some(rest) = behind(text, title) else {
        return Err(TextErr::Syntax { line: 1 });
    };
    let (image, rest) = image_at(alloc, rest)?;
    let line = line_behind(&image);
    let Some((params, rest)) = params_at(rest) else {
        return Err(TextErr::Syntax { line });
    };
    let (entries, rest) = entries_at(alloc, rest, line + 1)?;
    let lines = RawTrace {
        image,
        params,
        entries,
    };
    Ok((lines, rest))
}

/// Appends the lines of a trace between its title and its last line.
#[tactic(auto, unfolding(crate::specs::Fronts::front_text))]
pub fn put_front(
    alloc: Global,
    text: &mut Text,
    image: &Image,
    params: &Params,
    journal: &Journal,
) -> Result<(), NoMemory>
    ensures { OnOk result (text.new ≡ text.old ++ front_text image.now params.now journal.now) }
{
    put_image(alloc, text, image)?;
    put_params(text, params)?;
    put_journal(text, journal)?;
    Ok(())
}

// The bytes of an image.
pub fn put_image(alloc: Global, text: &mut Text, image: &Image) -> Result<(), NoMemory>
    ensures { OnOk result (text.new ≡ text.old ++ image_text (spelling image.now)) }
{
    let bytes = write_image(alloc, image)?;
    put_bytes(text, bytes.bytes())
}
