ghost use Rattle.std.specs.Prelude.{◌≡◌, ◌<◌, ◌-◌, ◌^◌, length, IfOk};
ghost use Rattle.alw_image.specs.Images.{IsImage};
ghost use Rattle.alw_image.specs.Numbers.{HasWords};
ghost use Rattle.sparc_assemble.specs.Assembly.{assembled, Answers};

use crate::fillings::fill_in;
use crate::images::{lines_of, parts_of};
use alw_image::{Image, LineList};
use sparc_asm::{AsmErr, read_source};
use sparc_place::lay_out;
use std::alloc::Global;

/// An assembled source.
#[derive(Drop)]
pub struct Assembled {
    pub image: Image,
    /// The source line of each code word, counted from 1.
    pub lines: LineList,
}

/// Assembles a source in the notation of the SPARC V8 manual, appendix A, in three passes: its lines, each by itself;
/// where each of them stands; and their values. The first pass with a fault decides, in it the first line, and on that
/// line the fault that stands first in `AsmErr`. A source without a code word is Range at line 0.
#[tactic(auto, unfolding(crate::specs::Assembly::assembled))]
pub fn assemble(alloc: Global, text: &[u8]) -> Result<Assembled, AsmErr>
    requires { length text.now < 2 ^ 32 - 1 }
    ensures answer { Answers (assembled text.now) result }
    ensures image { IfOk result (λ assembled. IsImage assembled.image) }
    ensures words { IfOk result (λ assembled. HasWords assembled.image) }
{
    let lines = read_source(alloc, text)?;
    let laid = lay_out(alloc, &lines)?;
    let filling = fill_in(alloc, &laid, &lines)?;
    if laid.plan.code() == 0 {
        return Err(AsmErr::Range { line: 0 });
    }
    let parts = parts_of(alloc, &laid.plan, &filling)?;
    let word_lines = lines_of(alloc, &filling.words)?;
    Ok(Assembled {
        image: Image::checked(parts),
        lines: word_lines,
    })
}
