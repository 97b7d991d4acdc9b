ghost use Rattle.std.specs.Prelude.{◌≤◌, length};
ghost use Rattle.alw_image.specs.declared.parts.Parts.{Parts};
ghost use Rattle.alw_image.specs.Images.{IsImage};
ghost use Rattle.alw_image.specs.Numbers.{HasWords};
ghost use Rattle.alw_source.specs.Sources.{source_of};
ghost use Rattle.law_sources.specs.ReadBack.{IsReadBack};

/// `assemble` of the source of an image answers that image, byte for byte; and the source is within what the
/// assembler reads.
#[tactic(auto, using(crate::proofs::ReadBack::read_back, crate::proofs::Sizes::most_bytes))]
pub fn images_are_read_back()
    ensures read { (p : Parts) → IsImage p → HasWords p → IsReadBack p }
    ensures most { (p : Parts) → IsImage p → HasWords p → length (source_of p) ≤ 268435456 }
{}
