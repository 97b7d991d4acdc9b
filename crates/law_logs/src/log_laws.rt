ghost use Rattle.std.specs.Prelude.{◌≡◌, List};
ghost use Rattle.alw_msg.specs.declared.events.Entry.{Entry};
ghost use Rattle.alw_image.specs.declared.parts.Parts.{Parts};
ghost use Rattle.alw_image.specs.Images.{IsImage};
ghost use Rattle.alw_image.specs.Parameters.{Parameters, AreParameters};
ghost use Rattle.alw_model.specs.declared.ends.Ended.{Ended};
ghost use Rattle.alw_model.specs.Machine.{IsLegal, machine_start};
ghost use Rattle.alw_log.specs.Logs.{lines_from, log_of};
ghost use Rattle.law_logs.specs.Told.{AreToldAlike};

/// The log of a run tells the run: two legal journals, each of an image and parameters of its own, have
/// one log only where they are the same journal, however each is said to have ended.
pub fn logs_tell_journals()
    ensures { (image other_image : Parts) → IsImage image → IsImage other_image → (parameters other_parameters : Parameters) →
        AreParameters parameters → AreParameters other_parameters → (one other : List Entry) → IsLegal image parameters one →
        IsLegal other_image other_parameters other → (ended other_ended : Ended) →
        log_of image parameters one ended ≡ log_of other_image other_parameters other other_ended → one ≡ other }
{}

/// The lines of the entries alone do, so that logs which agree in so many lines behind the first ones are
/// of runs which agree in so many events: fronts of legal journals are legal.
pub fn lines_tell_entries()
    ensures { (image other_image : Parts) → IsImage image → IsImage other_image → (parameters other_parameters : Parameters) →
        AreParameters parameters → AreParameters other_parameters → (one other : List Entry) → IsLegal image parameters one →
        IsLegal other_image other_parameters other →
        lines_from image parameters (machine_start image) one ≡ lines_from other_image other_parameters (machine_start other_image) other → one ≡ other }
{}

/// And a log tells what its first and its last lines say: images of one size, parameters that are the same
/// but for evictions to be tried, and one line of how the run ended.
pub fn logs_tell_sizes_and_ends()
    ensures { (image other_image : Parts) → IsImage image → IsImage other_image → (parameters other_parameters : Parameters) →
        AreParameters parameters → AreParameters other_parameters → (one other : List Entry) → IsLegal image parameters one →
        IsLegal other_image other_parameters other → (ended other_ended : Ended) →
        log_of image parameters one ended ≡ log_of other_image other_parameters other other_ended →
        AreToldAlike image other_image parameters other_parameters ended other_ended }
{}
