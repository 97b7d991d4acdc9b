ghost use Rattle.std.specs.Prelude.{◌≡◌, ◌∷◌, ◌++◌, [], List, length, IsTrue};
ghost use Rattle.alw_msg.specs.declared.events.Entry.{Entry};
ghost use Rattle.alw_msg.specs.declared.events.Event.{Event};
ghost use Rattle.alw_image.specs.declared.parts.Parts.{Parts};
ghost use Rattle.alw_image.specs.Images.{node_count};
ghost use Rattle.alw_image.specs.Parameters.{Parameters};
ghost use Rattle.alw_model.specs.Machine.{MachineState, state, is_enabled, stepped_by, step};
ghost use Rattle.alw_model.specs.Runs.{Moment, moment_of, moments, turns_of, prints_of};
ghost use Rattle.alw_model.specs.Counts.{counts_of};
ghost use Rattle.alw_tally.specs.Told.{told_of, told_with};
ghost use Rattle.alw_tally.specs.Remaining.{remains_of, remains_after, MayFollow, AreFew};

/// What a run and one more event tell follows from what the run told and from that event.
#[tactic(auto, using(crate::proofs::Telling::told_push, crate::proofs::Telling::told_entry))]
pub fn told_event_by_event()
    ensures event { (parts : Parts) (run : List Moment) (moment : Moment) → told_of parts (run ++ moment ∷ []) ≡ told_with parts (told_of parts run) moment }
    ensures entry { (parts : Parts) (parameters : Parameters) (journal : List Entry) (entry : Entry) →
        told_of parts (moments parts parameters (journal ++ entry ∷ []))
        ≡ told_with parts (told_of parts (moments parts parameters journal)) (moment_of parts parameters (state parts parameters journal) entry) }
    ensures turns { (parts : Parts) (parameters : Parameters) (journal : List Entry) → (told_of parts (moments parts parameters journal)).turns ≡ turns_of parts parameters journal }
    ensures prints { (parts : Parts) (parameters : Parameters) (journal : List Entry) → (told_of parts (moments parts parameters journal)).prints ≡ prints_of parts parameters journal }
    ensures counts { (parts : Parts) (parameters : Parameters) (journal : List Entry) → (told_of parts (moments parts parameters journal)).counts ≡ counts_of parts (moments parts parameters journal) }
{}

/// What remains at all nodes after an event of a machine follows from what remained, from the event and
/// from what it did. The numbers fit 32 bits where there is room for one trapped context and one packet
/// more.
#[tactic(auto, using(crate::proofs::Following::remains_are, crate::proofs::Following::may_follow))]
pub fn remains_by_event()
    ensures remains { (parts : Parts) (parameters : Parameters) (machine : MachineState) (event : Event) → length machine.nodes ≡ node_count parts →
        IsTrue (is_enabled parts parameters machine event) →
        remains_of (step parts parameters machine event).nodes ≡ remains_after (remains_of machine.nodes) event (stepped_by parts parameters machine event).did }
    ensures fits { (parts : Parts) (parameters : Parameters) (machine : MachineState) (event : Event) → length machine.nodes ≡ node_count parts →
        IsTrue (is_enabled parts parameters machine event) → AreFew (remains_of machine.nodes) →
        MayFollow (remains_of machine.nodes) event (stepped_by parts parameters machine event).did }
{}
