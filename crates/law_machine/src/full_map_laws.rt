ghost use Rattle.std.specs.Prelude.{◌≡◌, ℕ, ◌<◌, ◌≤◌, List};
ghost use Rattle.alw_image.specs.declared.parts.Parts.{Parts};
ghost use Rattle.alw_image.specs.Images.{line_count, body_of};
ghost use Rattle.alw_image.specs.Parameters.{Parameters};
ghost use Rattle.alw_msg.specs.declared.events.Entry.{Entry};
ghost use Rattle.alw_model.specs.LimitLess.{full_map_of};
ghost use Rattle.alw_model.specs.Machine.{IsLegal, state};
ghost use Rattle.alw_model.specs.Lines.{entry_of};
ghost use Rattle.alw_model.specs.Runs.{acted_messages, full_map_after};
ghost use Rattle.law_machine.specs.Values.{AfterEveryJournal};

/// After every legal journal the home of each line (H joined with S, state, counter and body) is the
/// full map's entry that acted on the same messages in the same order (ASPLOS 1991, sections 3 and 4).
#[tactic(auto, using(crate::proofs::FullMaps::always_full_maps))]
pub fn homes_are_full_maps()
    ensures { AfterEveryJournal (λ parts parameters journal machine. (line : ℕ) → line < line_count parts →
        full_map_of (entry_of parts machine line) ≡ full_map_after parts parameters journal line) }
{}

/// So pointers, traps and the rest of the machine don't matter to a home: whatever the parameters,
/// two journals in which it acted on the same messages leave it the same.
#[tactic(auto, using(crate::proofs::FullMaps::same_home))]
pub fn same_messages_same_home()
    ensures { (parts : Parts) → (one other : Parameters) → 1 ≤ one.pointers → 1 ≤ other.pointers → (first second : List Entry) → IsLegal parts one first → IsLegal parts other second →
        (line : ℕ) → line < line_count parts → acted_messages parts one first line ≡ acted_messages parts other second line →
        full_map_of (entry_of parts (state parts one first) line) ≡ full_map_of (entry_of parts (state parts other second) line) }
{}
