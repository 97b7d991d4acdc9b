ghost use Rattle.std.specs.Prelude.{◌≡◌, ◌≤◌, IfOk, IfErr};
ghost use Rattle.alw_trace.specs.Readings.{HasTraceTypes, ReadsTrace};
ghost use Rattle.alw_trace.specs.Raw.{IsImageFault, IsImageOf, IsTraceOf, IsNoTrace, lines_of};

use crate::faults::TextErr;
use crate::image_lines::line_behind;
use crate::ranges::{journal_of, params_of};
use crate::raw::RawTrace;
use crate::trace_lines::read_lines;
use crate::values::Trace;
use alw_image::{Image, ImageErr, read_image};
use std::alloc::Global;

/// The trace that a text spells, with 0 for how often evictions are tried: the text doesn't say it.
/// It fails by the first of the checks that the text doesn't pass (see [`TextErr`]), or for want of
/// memory; what it takes is in proportion to the text.
pub fn read_trace(alloc: Global, bytes: &[u8]) -> Result<Trace, TextErr>
    ensures read { ReadsTrace bytes.now result }
    ensures types { IfOk result HasTraceTypes }
{
    let lines = read_lines(alloc, bytes)?;
    trace_of(alloc, &lines)
}

// The trace of a text's lines.
pub fn trace_of(alloc: Global, lines: &RawTrace) -> Result<Trace, TextErr>
    ensures ok { IfOk result (λ trace. IsTraceOf (lines_of lines.now) trace) }
    ensures err { IfErr result (IsNoTrace (lines_of lines.now)) }
{
    let image = image_of(alloc, lines.image.bytes())?;
    let nodes = u32::from(image.nodes());
    let line = line_behind(&lines.image);
    let Some(params) = params_of(&lines.params, nodes) else {
        return Err(TextErr::Range { line });
    };
    if lines.entries.len() as u64 > u64::from(u32::MAX) {
        return Err(TextErr::Range { line: line + 1 });
    }
    let journal = journal_of(alloc, &lines.entries, nodes, params.sets(), line + 2)?;
    Ok(Trace {
        image,
        params,
        journal,
    })
}

// The image of these bytes.
pub fn image_of(alloc: Global, bytes: &[u8]) -> Result<Image, TextErr>
    ensures ok { IfOk result (λ image. IsImageOf bytes.now image) }
    ensures err { IfErr result (IsImageFault bytes.now) }
{
    match read_image(alloc, bytes) {
        Ok(image) => Ok(image),
        Err(ImageErr::NoMemory) => Err(TextErr::NoMemory),
        Err(fault) => Err(TextErr::Image { fault }),
    }
}
