ghost use Rattle.std.specs.Prelude.{◌≡◌, None};
ghost use Rattle.alw_image.specs.declared.parts.Parts.{Parts};
ghost use Rattle.alw_image.specs.Images.{IsImage, spelling};
ghost use Rattle.alw_image.specs.Faults.{image_fault};
ghost use Rattle.alw_image.specs.Numbers.{HasWords};

/// Each image's spelling has no fault, and no two images have the same. So what `write_image` wrote
/// `read_image` reads back as the same image, or it answers want of memory.
#[tactic(auto, using(crate::proofs::Spelled::has_no_fault, crate::proofs::Spelled::same_image))]
pub fn images_are_read()
    ensures accepted { (image : Parts) → IsImage image → HasWords image → image_fault (spelling image) ≡ None }
    ensures same { (one other : Parts) → IsImage one → HasWords one → IsImage other → HasWords other → spelling one ≡ spelling other → one ≡ other }
{}
