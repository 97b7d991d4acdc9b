ghost use Rattle.std.specs.Prelude.{◌≡◌, ◌↔◌, ◌∷◌, ◌++◌, [], ℕ, List, None, IsTrue, false, take};
ghost use Rattle.alw_image.specs.declared.parts.Parts.{Parts};
ghost use Rattle.alw_image.specs.Parameters.{Parameters};
ghost use Rattle.alw_msg.specs.declared.events.Entry.{Entry};
ghost use Rattle.alw_msg.specs.Events.{is_evict};
ghost use Rattle.alw_model.specs.Machine.{MachineState, state, step, IsNext, IsLegal, is_legal, end_of};
ghost use Rattle.alw_model.specs.Headline.{IsScheduled};
ghost use Rattle.alw_model.specs.Runs.{moments, moment_of};
ghost use Rattle.alw_model.specs.MachineInvariant.{MachineInvariant};
ghost use Rattle.alw_model.specs.Threads.{Logged, IsLocalRun, StampsRise};
ghost use Rattle.alw_model.specs.Checks.{is_sound};

/// A journal is legal exactly where each entry passes its test in its turn.
#[tactic(auto, using(crate::proofs::Journals::tested_legal))]
pub fn legal_as_tested()
    ensures { (parts : Parts) → (parameters : Parameters) → (journal : List Entry) → IsTrue (is_legal parts parameters journal) ↔ IsLegal parts parameters journal }
{}

/// The machine invariant holds exactly where its test says so.
#[tactic(auto, using(crate::proofs::Soundness::tested_sound))]
pub fn sound_as_tested()
    ensures { (parts : Parts) → (parameters : Parameters) → (machine : MachineState) → IsTrue (is_sound parts parameters machine) ↔ MachineInvariant parts parameters machine }
{}

/// In a node's local run stamps rise strictly, and a message taken has a stamp below its entry's.
#[tactic(auto, using(crate::proofs::Logs::stamps_rise))]
pub fn log_stamps_rise()
    ensures { (parts : Parts) → (parameters : Parameters) → (number : ℕ) → (log : List Logged) → IsLocalRun parts parameters number log → StampsRise 0 log }
{}

/// One more entry: the next state, one more event, and a legal journal where the entry is the next.
/// Each front of a legal journal is legal.
#[tactic(auto, using(crate::proofs::Journals::state_push, crate::proofs::Journals::moments_push, crate::proofs::Journals::legal_push, crate::proofs::Journals::legal_take))]
pub fn one_more_entry()
    ensures state { (parts : Parts) → (parameters : Parameters) → (journal : List Entry) → (entry : Entry) →
        state parts parameters (journal ++ entry ∷ []) ≡ step parts parameters (state parts parameters journal) entry.event }
    ensures event { (parts : Parts) → (parameters : Parameters) → (journal : List Entry) → (entry : Entry) →
        moments parts parameters (journal ++ entry ∷ []) ≡ moments parts parameters journal ++ moment_of parts parameters (state parts parameters journal) entry ∷ [] }
    ensures legal { (parts : Parts) → (parameters : Parameters) → (journal : List Entry) → (entry : Entry) →
        IsLegal parts parameters journal → IsNext parts parameters (state parts parameters journal) entry → IsLegal parts parameters (journal ++ entry ∷ []) }
    ensures front { (parts : Parts) → (parameters : Parameters) → (journal : List Entry) → (n : ℕ) →
        IsLegal parts parameters journal → IsLegal parts parameters (take n journal) }
{}

/// A journal that is made event by event: there is one before the first event, and one with an entry
/// more where no end holds yet.
#[tactic(auto, using(crate::proofs::Schedules::scheduled_none, crate::proofs::Schedules::scheduled_more))]
pub fn one_more_event()
    ensures none { (parts : Parts) → (parameters : Parameters) → IsScheduled parts parameters [] }
    ensures more { (parts : Parts) → (parameters : Parameters) → (journal : List Entry) → (entry : Entry) →
        IsScheduled parts parameters journal → end_of parts parameters (state parts parameters journal) ≡ None →
        (parameters.evict ≡ 0 → is_evict entry.event ≡ false) → IsScheduled parts parameters (journal ++ entry ∷ []) }
{}
