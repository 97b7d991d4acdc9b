ghost use Rattle.std.specs.Prelude.{◌≡◌, ℕ, ◌≤◌, List, take};
ghost use Rattle.alw_image.specs.declared.parts.Parts.{Parts};
ghost use Rattle.alw_image.specs.Parameters.{Parameters};
ghost use Rattle.alw_msg.specs.declared.events.Entry.{Entry};
ghost use Rattle.alw_model.specs.Machine.{IsLegal, state};
ghost use Rattle.alw_model.specs.Flat.{AreReady, flat_after, flat_prints};
ghost use Rattle.alw_model.specs.Runs.{turns_of, prints_of, flat_view};
ghost use Rattle.law_machine.specs.Values.{AfterEveryJournal};

/// The machine is sequentially consistent (Lamport 1979): after every legal journal, and so after
/// each front of it, the current values of all lines and the registers and statuses of all contexts
/// are those of the flat machine after the journal's turns, one after the other on one memory. Each
/// turn is of a context that is Ready there, and both print the same. A context that waits counts as
/// Ready.
pub fn memory_is_flat()
    ensures values { AfterEveryJournal (λ parts parameters journal machine. flat_view parts parameters machine ≡ flat_after parts (turns_of parts parameters journal)) }
    ensures turns { AfterEveryJournal (λ parts parameters journal machine. AreReady parts (turns_of parts parameters journal)) }
    ensures prints { AfterEveryJournal (λ parts parameters journal machine. prints_of parts parameters journal ≡ flat_prints parts (turns_of parts parameters journal)) }
    ensures fronts { AfterEveryJournal (λ parts parameters journal machine. (n : ℕ) →
        flat_view parts parameters (state parts parameters (take n journal)) ≡ flat_after parts (turns_of parts parameters (take n journal))) }
{}

/// So caches, pointers and links don't matter to a program: whatever the parameters, two journals
/// with the same turns leave the same values, registers and statuses, and print the same.
pub fn same_turns_same_memory()
    ensures values { (parts : Parts) → (one other : Parameters) → 1 ≤ one.pointers → 1 ≤ other.pointers → (first second : List Entry) → IsLegal parts one first → IsLegal parts other second →
        turns_of parts one first ≡ turns_of parts other second → flat_view parts one (state parts one first) ≡ flat_view parts other (state parts other second) }
    ensures prints { (parts : Parts) → (one other : Parameters) → 1 ≤ one.pointers → 1 ≤ other.pointers → (first second : List Entry) → IsLegal parts one first → IsLegal parts other second →
        turns_of parts one first ≡ turns_of parts other second → prints_of parts one first ≡ prints_of parts other second }
{}
