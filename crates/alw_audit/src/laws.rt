ghost use Rattle.std.specs.Prelude.{◌≤◌, List, length};
ghost use Rattle.alw_msg.specs.declared.events.Entry.{Entry};
ghost use Rattle.alw_image.specs.declared.parts.Parts.{Parts};
ghost use Rattle.alw_image.specs.Images.{IsImage};
ghost use Rattle.alw_image.specs.Numbers.{HasWords};
ghost use Rattle.alw_image.specs.Parameters.{Parameters};
ghost use Rattle.alw_model.specs.declared.ends.Ended.{Ended};
ghost use Rattle.alw_model.specs.Headline.{IsCoherentRun};
ghost use Rattle.alw_model.specs.Runs.{turns_of};
ghost use Rattle.alw_trace.specs.Readings.{HasClaimTypes, IsClaim, most_turns};
ghost use Rattle.alw_audit.specs.Claims.{claim_of};
ghost use Rattle.alw_audit.specs.Verdicts.{ClaimIsSound};

/// What a coherent run claims is sound: the flat run of its turns is defined, and gives its prints and each word
/// of shared data at its end, where a word that it doesn't list is 0. Where the run has at most 8,388,608 turns,
/// it is a claim: its turns and prints are of contexts of the image, and it lists words of shared data that
/// aren't 0, by address. It has a claim's types, since registers and lanes hold words.
#[tactic(auto, using(crate::proofs::RunClaims::runs_sound, crate::proofs::ClaimForms::runs_claim, crate::proofs::ClaimTypes::runs_types))]
pub fn runs_claim_what_is_sound()
    ensures sound { (image : Parts) → (parameters : Parameters) → (journal : List Entry) → (ended : Ended) →
        IsCoherentRun image parameters journal ended → ClaimIsSound (claim_of image parameters journal) }
    ensures claim { (image : Parts) → (parameters : Parameters) → (journal : List Entry) → (ended : Ended) → IsImage image →
        IsCoherentRun image parameters journal ended → length (turns_of image parameters journal) ≤ most_turns →
        IsClaim (claim_of image parameters journal) }
    ensures types { (image : Parts) → (parameters : Parameters) → (journal : List Entry) → (ended : Ended) → IsImage image → HasWords image →
        IsCoherentRun image parameters journal ended → length (turns_of image parameters journal) ≤ most_turns →
        HasClaimTypes (claim_of image parameters journal) }
{}
