ghost use Rattle.alw_config.specs.Choices.{IsWorkload};
ghost use Rattle.alw_builds.specs.Making.{Makes, HasNone};
ghost use Rattle.alw_answers.specs.Outputs.{Gives};

use alw_answers::{Ending, Output, Refusal};
use alw_gen::workload;
use alw_image::write_image;
use std::alloc::Global;

/// Makes the image of a workload.
pub fn make_workload(
    alloc: Global,
    seed: u64,
    width: u8,
    height: u8,
    size: u32,
) -> Result<Output, Refusal>
    requires { IsWorkload width height size }
    ensures { Gives (Makes (record { seed = seed; width = width; height = height; size = size })) HasNone result }
{
    let image = workload(alloc, seed, width, height, size)?;
    let text = write_image(alloc, &image)?;
    Ok(Output::of_text(alloc, text, Ending::Fine))
}
