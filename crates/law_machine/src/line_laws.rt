ghost use Rattle.std.specs.Prelude.{◌≡◌, ◌≢◌, ℕ, ◌<◌, ◌≤◌, List, ◌∷◌, false, Some, IsSome, IsTrue};
ghost use Rattle.std.specs.List.{AllByRecursion};
ghost use Rattle.alw_num.specs.declared.addresses.Line.{Line};
ghost use Rattle.alw_num.specs.declared.states.Mode.{Mode};
ghost use Rattle.alw_num.specs.Weights.{sum_below};
ghost use Rattle.alw_image.specs.Images.{node_count, line_count, body_of};
ghost use Rattle.alw_msg.specs.Contents.{ToMemory, ToCache, is_reply};
ghost use Rattle.alw_model.specs.FullMap.{home_start};
ghost use Rattle.alw_model.specs.LimitLess.{full_map_of};
ghost use Rattle.alw_model.specs.Lines.{entry_of, line_of, current_value};
ghost use Rattle.alw_model.specs.LineInvariant.{reads, writes, owes};
ghost use Rattle.alw_model.specs.Runs.{moments, acted_messages};
ghost use Rattle.law_line.specs.Combinations.{IsListed, AreListed};
ghost use Rattle.law_machine.specs.Replies.{MeetsTransaction};
ghost use Rattle.law_machine.specs.Values.{AfterEveryJournal};

/// A home acts on combinations alone that its table lists: each message that a journal delivers
/// without a trap or handles is listed at the full map's entry after those before it, and so is the
/// message that the home acts on next, a packet or the head of a link.
#[tactic(auto, using(crate::proofs::FullMaps::always_acted_listed, crate::proofs::LineFacts::always_listed))]
pub fn no_unlisted_combination()
    ensures acted { AfterEveryJournal (λ parts parameters journal machine. (line : ℕ) → line < line_count parts →
        AreListed (home_start (body_of parts line)) (acted_messages parts parameters journal line)) }
    ensures next { AfterEveryJournal (λ parts parameters journal machine. (line : ℕ) → line < line_count parts → (i : ℕ) → (message : ToMemory) → (rest : List ToMemory) →
        ((line_of parts parameters machine line).node i).up ≡ message ∷ rest → IsListed (full_map_of (entry_of parts machine line)) i message) }
{}

/// RDATA, WDATA and BUSY meet a transaction of the node that they come to: each that a journal
/// delivers, and each that comes next.
#[tactic(auto, using(crate::proofs::FullMaps::always_came, crate::proofs::LineFacts::always_meets))]
pub fn replies_meet_transactions()
    ensures came { AfterEveryJournal (λ parts parameters journal machine. AllByRecursion MeetsTransaction (moments parts parameters journal)) }
    ensures next { AfterEveryJournal (λ parts parameters journal machine. (line : ℕ) → line < line_count parts → (i : ℕ) → (message : ToCache) → (rest : List ToCache) →
        ((line_of parts parameters machine line).node i).down ≡ message ∷ rest → IsTrue (is_reply message) → IsSome ((line_of parts parameters machine line).node i).transaction) }
{}

/// Two nodes never have Read-Write copies of one line, nor one a Read-Write and another a Read-Only
/// copy.
pub fn writers_are_alone()
    ensures one { AfterEveryJournal (λ parts parameters journal machine. (line : ℕ) → line < line_count parts → (i j : ℕ) →
        IsTrue (writes ((line_of parts parameters machine line).node i)) → IsTrue (writes ((line_of parts parameters machine line).node j)) → i ≡ j) }
    ensures no_reader { AfterEveryJournal (λ parts parameters journal machine. (line : ℕ) → line < line_count parts → (i j : ℕ) →
        IsTrue (writes ((line_of parts parameters machine line).node i)) → i ≢ j → reads ((line_of parts parameters machine line).node j) ≡ false) }
{}

/// Every copy holds the line's current value.
pub fn copies_are_current()
    ensures { AfterEveryJournal (λ parts parameters journal machine. (line : ℕ) → line < line_count parts → (i : ℕ) → (mode : Mode) → (body : Line) →
        ((line_of parts parameters machine line).node i).copy ≡ Some (mode, body) → body ≡ current_value parts parameters machine line) }
{}

/// A home that counts so many acknowledgements is owed so many.
pub fn answers_are_owed()
    ensures { AfterEveryJournal (λ parts parameters journal machine. (line : ℕ) → line < line_count parts →
        sum_below (node_count parts) (λ i. owes ((line_of parts parameters machine line).node i)) ≡ (entry_of parts machine line).acks) }
{}
