ghost use Rattle.std.specs.Prelude.{◌≤◌, List};
ghost use Rattle.alw_msg.specs.declared.events.Entry.{Entry};
ghost use Rattle.alw_image.specs.declared.parts.Parts.{Parts};
ghost use Rattle.alw_image.specs.Parameters.{Parameters};
ghost use Rattle.alw_model.specs.declared.ends.Ended.{Ended};
ghost use Rattle.alw_model.specs.Machine.{IsLegal};
ghost use Rattle.alw_model.specs.Ends.{IsEnd};
ghost use Rattle.alw_model.specs.Headline.{IsCoherentRun};
ghost use Rattle.law_machine.specs.Values.{AfterEveryJournal};

/// The headline: every legal journal at an end is a coherent run. Its loads, printed words and memory
/// are those of contexts taking turns on one flat memory in journal order (Lamport 1979), and after each
/// of its events every home is a full-map directory's (ASPLOS 1991).
#[tactic(auto, using(crate::proofs::CoherentRuns::coherent_run))]
pub fn ended_journals_are_coherent()
    ensures { AfterEveryJournal (λ parts parameters journal machine. (ended : Ended) → IsEnd parts parameters journal ended → IsCoherentRun parts parameters journal ended) }
{}
