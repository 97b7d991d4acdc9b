ghost use Rattle.std.specs.Prelude.{◌≡◌, true};
ghost use Rattle.alw_image.specs.declared.parts.Parts.{Parts};
ghost use Rattle.alw_endings.specs.declared.values.Outcomes.{Outcomes};
ghost use Rattle.alw_endings.specs.Ends.{AreOutcomes};
ghost use Rattle.alw_endings.specs.Schedules.{TellsEveryRun};

/// Where the search is complete, whatever a run of the machine comes to is told: after every legal
/// journal, so for every seed, all parameters and any number of workers, the prints and the memory of
/// its report where all contexts have halted, and the trap of each context that has trapped.
pub fn schedules_are_told()
    ensures { (parts : Parts) → (told : Outcomes) → AreOutcomes parts told → told.is_complete ≡ true → TellsEveryRun parts told }
{}
