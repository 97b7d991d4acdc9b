ghost use Rattle.alw_answers.specs.Outputs.{Gives};
ghost use Rattle.alw_answers.specs.Refusals.{IsNoImage};
ghost use Rattle.alw_builds.specs.ReadingBack.{ReadsBack};

use alw_answers::{Ending, Output, Refusal};
use alw_image::read_image;
use alw_source::source_of;
use std::alloc::Global;

/// Writes the source of the image that bytes spell.
pub fn read_back(alloc: Global, bytes: &[u8]) -> Result<Output, Refusal>
    ensures { Gives (ReadsBack bytes.now) (IsNoImage bytes.now) result }
{
    let image = read_image(alloc, bytes)?;
    let text = source_of(alloc, &image)?;
    Ok(Output::of_text(alloc, text, Ending::Fine))
}
