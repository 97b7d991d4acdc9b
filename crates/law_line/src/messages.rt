ghost use Rattle.std.specs.Prelude.{◌≡◌, ◌≢◌, ℕ, ◌+◌, ◌<◌, ◌≤◌, ◌⊎◌, List, [], ◌∷◌, None, length, IsSome, IsTrue};
ghost use Rattle.std.specs.List.{list_all};
ghost use Rattle.alw_num.specs.declared.addresses.Line.{Line};
ghost use Rattle.alw_num.specs.Weights.{sum_below};
ghost use Rattle.alw_msg.specs.Contents.{ToMemory, ToCache, is_reply, is_repm};
ghost use Rattle.alw_model.specs.FullMap.{Home, home_start, act, unlisted};
ghost use Rattle.alw_model.specs.LineInvariant.{owes};
ghost use Rattle.alw_model.specs.Runs.{acted_on};
ghost use Rattle.law_line.specs.Protocol.{LineEvent, start, run, IsLegalRun, AfterEveryRun};
ghost use Rattle.law_line.specs.Combinations.{IsListed, AreListed};
ghost use Rattle.law_line.specs.Exchanges.{acted_in, MeetIn};

/// The home never meets a combination that its table doesn't list: each message that it acts on in a
/// run is listed at the entry that those before it left, and so is the message that it acts on next.
/// An unlisted combination would change nothing and send nothing.
#[tactic(auto, using(crate::proofs::Acted::acted_listed, crate::proofs::Acted::acted_home, crate::proofs::Always::always_listed, crate::proofs::Unlisted::act_unlisted))]
pub fn no_unlisted_combination()
    ensures acted { (n : ℕ) → (first : Line) → (es : List LineEvent) → IsLegalRun n (start first) es → AreListed (home_start first) (acted_in (start first) es) }
    ensures home { (n : ℕ) → (first : Line) → (es : List LineEvent) → IsLegalRun n (start first) es → (run (start first) es).home ≡ acted_on (home_start first) (acted_in (start first) es) }
    ensures next { AfterEveryRun (λ n value s. (i : ℕ) → (message : ToMemory) → (rest : List ToMemory) → (s.node i).up ≡ message ∷ rest → IsListed s.home i message) }
    ensures ignored { (h : Home) → (i : ℕ) → (message : ToMemory) → ¬ IsListed h i message → act h i message ≡ unlisted h }
{}

/// RDATA, WDATA and BUSY meet a transaction of the node that they come to: those that came in a run,
/// and those that come next.
#[tactic(auto, using(crate::proofs::Acted::always_meet, crate::proofs::Always::always_meets))]
pub fn replies_end_transactions()
    ensures came { (n : ℕ) → (first : Line) → (es : List LineEvent) → IsLegalRun n (start first) es → MeetIn (start first) es }
    ensures next { AfterEveryRun (λ n value s. (i : ℕ) → (message : ToCache) → (rest : List ToCache) → (s.node i).down ≡ message ∷ rest → IsTrue (is_reply message) → IsSome (s.node i).transaction) }
{}

/// A home that counts so many acknowledgements is owed so many, as INVs, ACKCs and UPDATEs that are
/// on their way.
#[tactic(auto, using(crate::proofs::Always::always_owed))]
pub fn answers_are_owed()
    ensures { AfterEveryRun (λ n value s. sum_below n (λ i. owes (s.node i)) ≡ s.home.acks) }
{}

/// While a node has a transaction, a message of the line is on its way from or to one of the nodes.
#[tactic(auto, using(crate::proofs::Always::always_moves))]
pub fn transactions_go_on()
    ensures { AfterEveryRun (λ n value s. (i : ℕ) → IsSome (s.node i).transaction → (k : ℕ) × ((k < n) × (1 ≤ length (s.node k).up + length (s.node k).down))) }
{}

/// While no node has a transaction, a REPM is all that can be on its way, and one at most.
#[tactic(auto, using(crate::proofs::Always::always_rests, crate::proofs::Always::always_one_left))]
pub fn at_rest()
    ensures repm { AfterEveryRun (λ n value s. ((i : ℕ) → (s.node i).transaction ≡ None) → (i : ℕ) → ((s.node i).down ≡ []) × IsTrue (list_all is_repm (s.node i).up)) }
    ensures one { AfterEveryRun (λ n value s. ((i : ℕ) → (s.node i).transaction ≡ None) → sum_below n (λ i. length (s.node i).up + length (s.node i).down) ≤ 1) }
{}
