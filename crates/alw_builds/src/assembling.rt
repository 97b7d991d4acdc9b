ghost use Rattle.std.specs.Prelude.{◌≡◌, ◌≤◌, length, IfOk};
ghost use Rattle.alw_builds.specs.Assembling.{Assembles, IsNoSource};
ghost use Rattle.alw_answers.specs.Outputs.{Gives};
ghost use Rattle.alw_builds.specs.Listing.{assembled_text};

use crate::listings::listing;
use alw_answers::{Ending, MOST_INPUT, Output, Refusal};
use alw_config::AsmForm;
use alw_image::write_image;
use alw_num::{Bytes, NoMemory};
use sparc_assemble::{Assembled, assemble};
use std::alloc::Global;

/// Assembles a source, to its image or listing.
pub fn assemble_source(alloc: Global, form: AsmForm, source: &[u8]) -> Result<Output, Refusal>
    requires { length source.now ≤ MOST_INPUT }
    ensures { Gives (Assembles form source.now) (IsNoSource source.now) result }
{
    let assembled = assemble(alloc, source)?;
    let text = text_of(alloc, form, &assembled)?;
    Ok(Output::of_text(alloc, text, Ending::Fine))
}

// An assembled source in the form that was asked for.
fn text_of(alloc: Global, form: AsmForm, assembled: &Assembled) -> Result<Bytes, NoMemory>
    requires { length assembled.now.lines ≡ length assembled.now.image.code }
    ensures { IfOk result (λ bytes. bytes ≡ assembled_text form assembled.now) }
{
    match form {
        AsmForm::Image => write_image(alloc, &assembled.image),
        AsmForm::Listing => listing(
            alloc,
            assembled.image.code().members(),
            assembled.lines.members(),
        ),
    }
}
