ghost use Rattle.std.specs.Prelude.{◌≡◌, ◌<◌};
ghost use Rattle.alw_effects.specs.Before.{IsLineOf};
ghost use Rattle.alw_image.specs.Images.{context_count, line_count};
ghost use Rattle.alw_flat.specs.Machines.{for_turns};
ghost use Rattle.alw_claims.specs.Logs.{before_of, bytes_in};

use alw_effects::SlotBefore;
use alw_flat::Flat;
use alw_image::Image;
use alw_num::Line;
use sparc_exec::need;
use sparc_table::Need;

/// What is read of a context before its turn.
pub fn look(image: &Image, flat: &Flat, context: u32) -> SlotBefore
    requires parts { flat.now.parts ≡ for_turns image.now }
    requires context { context < context_count image.now }
    ensures { result ≡ before_of image.now flat.now.flat context }
{
    let regs = flat.regs(context);
    let need = need(image.code().words(), &regs, image.lines());
    SlotBefore {
        regs,
        need,
        body: bytes_in(flat, need),
    }
}

/// The bytes of the line that is needed, and zero where none is.
pub fn bytes_in(flat: &Flat, need: Need) -> Line
    requires { IsLineOf (line_count flat.now.parts) need }
    ensures { result ≡ bytes_in flat.now.flat need }
{
    match need {
        Need::Copy { line, .. } => flat.line(line),
        _ => Line::ZERO,
    }
}
