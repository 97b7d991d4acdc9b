ghost use Rattle.std.specs.Prelude.{◌≡◌, ◌≢◌, length, None, Some, IfOk, IfErr, IsTrue};
ghost use Rattle.alw_image.specs.declared.faults.ImageErr.TheVariants as faults;
ghost use Rattle.alw_image.specs.Images.{spelling};
ghost use Rattle.alw_image.specs.Faults.{range_fault, image_end, header_of, image_in, image_fault};
ghost use Rattle.alw_image.specs.Sizes.{ImageIsShort};
ghost use Rattle.alw_image.specs.TableReads.{PartsAreRead};

use crate::checks::tables_fault;
use crate::faults::ImageErr;
use crate::headers::{Header, front_fault, header_at, size_fault};
use crate::images::Image;
use crate::parts::Parts;
use crate::tables::{read_bodies, read_starts, read_words};
use alw_num::NoMemory;
use std::alloc::Global;

/// The image that bytes spell. It fails by the first of the checks that the bytes don't pass (see
/// [`ImageErr`]), or for want of memory; what it takes is in proportion to the bytes.
pub fn read_image(alloc: Global, bytes: &[u8]) -> Result<Image, ImageErr>
    ensures found { IfOk result (λ image. bytes.now ≡ spelling image) }
    ensures parts { IfOk result (λ image. image ≡ image_in bytes.now) }
    ensures accepted { IfOk result (λ image. image_fault bytes.now ≡ None) }
    ensures fault { IfErr result (λ fault. fault ≢ faults.NoMemory → image_fault bytes.now ≡ Some fault) }
{
    if let Some(fault) = front_fault(bytes) {
        return Err(fault);
    }
    let header = header_at(bytes).0;
    if let Some(fault) = size_fault(&header, bytes.len()) {
        return Err(fault);
    }
    let parts = read_parts(alloc, &header, bytes)?;
    match tables_fault(
        &parts,
        header.bodies_at(),
        header.starts_at(),
        header.always_at(),
    ) {
        Some(fault) => Err(fault),
        None => Ok(Image::checked(parts)),
    }
}

// The parts that bytes spell, in range and in order or not.
fn read_parts(alloc: Global, header: &Header, bytes: &[u8]) -> Result<Parts, NoMemory>
    requires short { ImageIsShort header.now }
    requires whole { length bytes.now ≡ image_end header.now }
    ensures { IfOk result (λ parts. PartsAreRead header.now bytes.now parts) }
{
    let code = &bytes[28..header.bodies_at() as usize];
    let bodies = &bytes[header.bodies_at() as usize..header.starts_at() as usize];
    let starts = &bytes[header.starts_at() as usize..header.always_at() as usize];
    let always = &bytes[header.always_at() as usize..];
    Ok(Parts {
        width: header.width,
        height: header.height,
        contexts: header.contexts,
        per_node: header.per_node,
        code: read_words(alloc, code, header.code)?,
        bodies: read_bodies(alloc, bodies, header.bodies)?,
        starts: read_starts(alloc, starts, header.starts)?,
        always: read_words(alloc, always, header.always)?,
    })
}
