ghost use Rattle.std.specs.Prelude.{◌≡◌, ◌≢◌, ℕ, ◌≤◌, List, ◌∷◌, ◌++◌};
ghost use Rattle.std.specs.List.Sorted.{IsPermutation};
ghost use Rattle.alw_msg.specs.declared.events.Entry.{Entry};
ghost use Rattle.alw_image.specs.declared.parts.Parts.{Parts};
ghost use Rattle.alw_image.specs.Parameters.{Parameters};
ghost use Rattle.alw_msg.specs.Events.{node_of};
ghost use Rattle.alw_model.specs.Machine.{state, AreLegal, IsLegal};
ghost use Rattle.alw_model.specs.Threads.{in_order};
ghost use Rattle.law_order.specs.Orders.{EveryJournal, Ascends, kept_by, later_than};

/// Two neighbours of a legal journal, of which the later one has no greater stamp, may change places:
/// the journal is legal in that order too, with the same stamps, and ends in the same state. They are
/// of different nodes. The limit's exception, that every context had halted, holds in both orders.
pub fn neighbours_swap()
    ensures legal { (parts : Parts) → (parameters : Parameters) → (front : List Entry) → (one other : Entry) → (rest : List Entry) →
        IsLegal parts parameters (front ++ one ∷ other ∷ rest) → other.stamp ≤ one.stamp → IsLegal parts parameters (front ++ other ∷ one ∷ rest) }
    ensures state { (parts : Parts) → (parameters : Parameters) → (front : List Entry) → (one other : Entry) → (rest : List Entry) →
        IsLegal parts parameters (front ++ one ∷ other ∷ rest) → other.stamp ≤ one.stamp →
        state parts parameters (front ++ other ∷ one ∷ rest) ≡ state parts parameters (front ++ one ∷ other ∷ rest) }
    ensures nodes { (parts : Parts) → (parameters : Parameters) → (front : List Entry) → (one other : Entry) → (rest : List Entry) →
        IsLegal parts parameters (front ++ one ∷ other ∷ rest) → other.stamp ≤ one.stamp → node_of one.event ≢ node_of other.event }
{}

/// A legal journal sorted by stamp, and then by node number, is legal, has the same entries, each as
/// often, and ends in the same state. No two entries have one place in this order, so it is the only
/// such list.
pub fn sorted_journal_is_legal()
    ensures legal { EveryJournal (λ parts parameters journal. IsLegal parts parameters (in_order journal)) }
    ensures state { EveryJournal (λ parts parameters journal. state parts parameters (in_order journal) ≡ state parts parameters journal) }
    ensures entries { EveryJournal (λ parts parameters journal. IsPermutation journal (in_order journal)) }
    ensures ascends { EveryJournal (λ parts parameters journal. Ascends (in_order journal)) }
    ensures only { EveryJournal (λ parts parameters journal. (other : List Entry) → IsPermutation journal other → Ascends other → other ≡ in_order journal) }
{}

/// A legal journal is cut at a stamp: the entries with at most this stamp, in order, and then the
/// others, in order, are a legal journal of the same entries that ends in the same state. So the first
/// part alone is legal, and the others go on from its state.
pub fn cut_is_legal()
    ensures kept { EveryJournal (λ parts parameters journal. (stamp : ℕ) → IsLegal parts parameters (kept_by stamp journal)) }
    ensures later { EveryJournal (λ parts parameters journal. (stamp : ℕ) → AreLegal parts parameters (state parts parameters (kept_by stamp journal)) (later_than stamp journal)) }
    ensures whole { EveryJournal (λ parts parameters journal. (stamp : ℕ) → IsLegal parts parameters (kept_by stamp journal ++ later_than stamp journal)) }
    ensures state { EveryJournal (λ parts parameters journal. (stamp : ℕ) → state parts parameters (kept_by stamp journal ++ later_than stamp journal) ≡ state parts parameters journal) }
    ensures entries { EveryJournal (λ parts parameters journal. (stamp : ℕ) → IsPermutation journal (kept_by stamp journal ++ later_than stamp journal)) }
{}

/// So the order of a legal journal doesn't matter to where it ends: two legal journals of the same
/// entries end in the same state.
pub fn same_entries_same_state()
    ensures { (parts : Parts) → (parameters : Parameters) → (one other : List Entry) → IsLegal parts parameters one → IsLegal parts parameters other → IsPermutation one other →
        state parts parameters one ≡ state parts parameters other }
{}
