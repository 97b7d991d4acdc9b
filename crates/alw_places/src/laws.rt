ghost use Rattle.std.specs.Prelude.{◌≡◌, ◌≢◌, ℕ, Bool, true, List, IsTrue};
ghost use Rattle.alw_image.specs.declared.parts.Parts.{Parts};
ghost use Rattle.alw_msg.specs.Statuses.{has_trapped};
ghost use Rattle.alw_model.specs.Flat.{AreReady, flat_after, flat_prints, context_at};
ghost use Rattle.alw_places.specs.Places.{Place, place_turn, outcome_at, IsReadyAt, IsLocal};
ghost use Rattle.alw_places.specs.Outcomes.{Ending, ComesTo, IsEndOfSet, IsReduced, HaltsWith, TrapsAt, HasTold, flat_halted};
ghost use Rattle.alw_places.specs.Sharing.{IsSharedReduced, IsToldOrBroken};
ghost use Rattle.alw_places.specs.declared.classes.Class.{Class};

/// A local turn of one context and any turn of another commute: both orders lead to the same place,
/// and neither changes whether or how the other context goes on.
pub fn local_turns_commute()
    ensures place { (parts : Parts) → (place : Place) → (context other : ℕ) → IsLocal parts place context → context ≢ other →
        place_turn parts (place_turn parts place context) other ≡ place_turn parts (place_turn parts place other) context }
    ensures stays { (parts : Parts) → (place : Place) → (context other : ℕ) → IsLocal parts place context → context ≢ other → IsLocal parts (place_turn parts place other) context }
    ensures ready { (parts : Parts) → (place : Place) → (context other : ℕ) → IsLocal parts place context → context ≢ other →
        IsReadyAt place other → IsReadyAt (place_turn parts place context) other }
    ensures outcome { (parts : Parts) → (place : Place) → (context other : ℕ) → IsLocal parts place context → context ≢ other →
        outcome_at parts (place_turn parts place context) other ≡ outcome_at parts place other }
{}

/// A set of places that has the start, and with each place either the next one by a turn that is
/// local and forward or all next ones, tells everything that runs come to.
pub fn reduced_set_tells_all()
    ensures { (parts : Parts) → (held : Place → Bool) → (ending : Ending) → IsReduced parts (λ place. IsTrue (held place)) → ComesTo parts ending →
        IsEndOfSet parts (λ place. IsTrue (held place)) ending }
{}

/// A set of places that has the start, and with each place either the next one by a turn that is
/// private and forward or all next ones, tells everything that runs come to, or a turn that breaks
/// what was said of the lines. Each line is shared, or one context's own, or never written.
pub fn private_turns_first()
    ensures { (parts : Parts) → (classes : List Class) → (held : Place → Bool) → IsSharedReduced parts classes (λ place. IsTrue (held place)) → (ending : Ending) → ComesTo parts ending →
        IsToldOrBroken parts classes (λ place. IsTrue (held place)) ending }
{}

/// What the flat machine has come to after turns, each of a context that is Ready, is what runs come
/// to: where all contexts have halted, with the memory and the words that each has printed; where a
/// context has trapped, with the first that did.
pub fn turns_come_to()
    ensures halted { (parts : Parts) → (turns : List ℕ) → AreReady parts turns → flat_halted (flat_after parts turns) ≡ true → HaltsWith parts (flat_after parts turns).memory (flat_prints parts turns) }
    ensures trapped { (parts : Parts) → (turns : List ℕ) → (context : ℕ) → AreReady parts turns → has_trapped (context_at (flat_after parts turns) context).status ≡ true → TrapsAt parts (flat_after parts turns) }
{}

/// Each context of the flat machine that has trapped after turns has a trap that runs come to, however
/// many have trapped: turns that trap can be left out of a run.
pub fn each_trap_is_told()
    ensures { (parts : Parts) → (turns : List ℕ) → AreReady parts turns → (context : ℕ) → has_trapped (context_at (flat_after parts turns) context).status ≡ true → HasTold parts (flat_after parts turns) context }
{}
