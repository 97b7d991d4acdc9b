ghost use Rattle.std.specs.Prelude.{◌≡◌, List};
ghost use Rattle.alw_image.specs.declared.parts.Parts.{Parts};
ghost use Rattle.alw_places.specs.Outcomes.{Ending, HasEvery};
ghost use Rattle.alw_outcomes.specs.Endings.{AreDifferent};

/// The different endings of a list, ascending, are one list: it depends on which endings the list has alone.
/// It has all that runs come to, where the list does.
pub fn different_endings_are_one()
    ensures once { (all one two : List Ending) → AreDifferent all one → AreDifferent all two → one ≡ two }
    ensures every { (parts : Parts) → (all some : List Ending) → HasEvery parts all → AreDifferent all some → HasEvery parts some }
{}
