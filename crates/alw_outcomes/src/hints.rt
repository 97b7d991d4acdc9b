ghost use Rattle.std.specs.Prelude.{◌≡◌, ◌≤◌, length, false, max, IfOk, IfNone, IsTrue};
ghost use Rattle.alw_places.specs.Outcomes.{HasEvery};
ghost use Rattle.alw_outcomes.specs.Explored.{found_in, endings_in, IsStored, IsReal, IsClosed, PlacesAreDifferent};

use crate::explored::{Explored, explore_by};
use alw_image::Image;
use alw_num::{Mode, NoMemory};
use alw_places::{Broken, Class, class_at, lines_of};
use std::alloc::Global;

/// Finds every outcome of an image. It first takes each line for one that nobody writes, and begins
/// again whenever a turn shows that the line is written by one context, or used by several. It keeps at
/// most `most` places, and the start, and stops as incomplete only where it keeps so many.
pub fn explore(alloc: Global, image: &Image, most: u32) -> Result<Explored, NoMemory>
    ensures stored { IfOk result (λ found. IsStored image.now found) }
    ensures real { IfOk result (λ found. IsReal image.now (found_in found)) }
    ensures closed { IfOk result (λ found. IsTrue found.is_complete → IsClosed image.now found.classes.items (found_in found)) }
    ensures complete { IfOk result (λ found. IsTrue found.is_complete → HasEvery image.now (endings_in (found_in found))) }
    ensures stopped { IfOk result (λ found. found.is_complete ≡ false → most ≤ length found.memories.items) }
    ensures few { IfOk result (λ found. length found.memories.items ≤ max most 1) }
    ensures different { IfOk result (λ found. PlacesAreDifferent (found_in found)) }
{
    let lines = lines_of(image);
    let mut classes = vec![in alloc; Class::Fixed; lines as usize]?;
    for _round in 0..lines.saturating_mul(2) {
        let found = explore_by(alloc, image, &classes, most)?;
        match first_break(&found.broken) {
            Some(turn) => weaken(&mut classes, turn),
            None => return Ok(found),
        }
    }
    let found = explore_by(alloc, image, &[], most)?;
    Ok(found)
}

// The first turn that didn't keep to the hint.
fn first_break(broken: &[Broken]) -> Option<Broken>
    ensures { IfNone result (length broken.now ≡ 0) }
{
    broken.first().copied()
}

// Says less of the line of a turn that didn't keep to the hint.
fn weaken(classes: &mut [Class], turn: Broken) {
    let class = match (class_at(classes, turn.line), turn.mode) {
        (Class::Fixed, Mode::Write) => Class::Own {
            context: turn.context,
        },
        _ => Class::Shared,
    };
    if (turn.line.0 as usize) < classes.len() {
        classes[turn.line.0 as usize] = class;
    }
}
