ghost use Rattle.std.specs.Prelude.{◌≡◌, ℕ, ◌*◌, ◌<◌, ◌≤◌, ◌==◌, ◌&&◌, List, length, IsTrue};
ghost use Rattle.std.specs.List.{list_all};
ghost use Rattle.alw_image.specs.declared.parts.Parts.{Parts};
ghost use Rattle.alw_image.specs.Images.{node_count, line_count};
ghost use Rattle.alw_image.specs.Parameters.{Parameters};
ghost use Rattle.alw_msg.specs.declared.events.Entry.{Entry};
ghost use Rattle.alw_model.specs.Machine.{IsLegal, node_at, state};
ghost use Rattle.alw_model.specs.Lines.{ups, packets_at, entry_of, line_of, current_value};
ghost use Rattle.alw_model.specs.LineInvariant.{LineInvariant};
ghost use Rattle.alw_model.specs.MachineInvariant.{points_rightly, caches_rightly};
ghost use Rattle.law_machine.specs.Values.{AfterEveryJournal, stored_after, MachineIsSoundWith};

/// After every legal journal each line meets the line invariant, whatever the image, with at least
/// one hardware pointer; and its current value is the one that was stored last.
pub fn lines_are_sound()
    ensures invariant { AfterEveryJournal (λ parts parameters journal machine. (line : ℕ) → line < line_count parts →
        LineInvariant (node_count parts) (line_of parts parameters machine line) (entry_of parts machine line) (length (ups line (packets_at parts machine line)))) }
    ensures value { AfterEveryJournal (λ parts parameters journal machine. (line : ℕ) → line < line_count parts →
        current_value parts parameters machine line ≡ stored_after parts parameters journal line) }
    ensures kept { AfterEveryJournal (λ parts parameters journal machine. MachineIsSoundWith parts parameters (stored_after parts parameters journal) machine) }
{}

/// After every legal journal pointers are nodes that exist, and those of hardware at most so many;
/// each cached line exists and stands in its set; and the machine has its nodes and links. These are
/// the clauses entries, caches and sizes of the machine invariant.
pub fn entries_and_caches_stand()
    ensures entries { AfterEveryJournal (λ parts parameters journal machine. (line : ℕ) → line < line_count parts → IsTrue (points_rightly parts parameters (entry_of parts machine line))) }
    ensures caches { AfterEveryJournal (λ parts parameters journal machine. (n : ℕ) → n < node_count parts → IsTrue (list_all (caches_rightly parts parameters) (node_at machine n).cache.entries)) }
    ensures sizes { AfterEveryJournal (λ parts parameters journal machine. IsTrue (length machine.nodes == node_count parts && (length machine.links == node_count parts * node_count parts))) }
{}
