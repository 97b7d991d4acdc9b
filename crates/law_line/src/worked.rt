ghost use Rattle.std.specs.Prelude.{◌≡◌, ◌∷◌, ◌++◌, [], Some, None};
ghost use Rattle.alw_num.specs.declared.addresses.Line.{Line};
ghost use Rattle.alw_num.specs.declared.states.Mode.TheVariants.{Read};
ghost use Rattle.alw_num.specs.declared.states.State.TheVariants.{RO, RW, WT};
ghost use Rattle.alw_num.specs.NodeSets.{one_node};
ghost use Rattle.alw_msg.specs.Contents.{WDATA};
ghost use Rattle.alw_model.specs.Lines.{absent};
ghost use Rattle.law_line.specs.Protocol.{start, run, IsLegalRun};
ghost use Rattle.law_line.specs.Worked.{handover, crossing, one_answered, both_answered};

/// Node 0 stores a value, and node 1 reads it: the owner answers the INV with the line, and keeps
/// no copy.
#[tactic(auto, unfolding(crate::specs::Worked::worked_runs))]
pub fn line_is_handed_over()
    ensures legal { (first body : Line) → IsLegalRun 2 (start first) (handover body) }
    ensures home { (first body : Line) → (run (start first) (handover body)).home ≡ record { state = RO; pointers = one_node 1; acks = 0; body = body } }
    ensures reader { (first body : Line) → ((run (start first) (handover body)).node 1).copy ≡ Some (Read, body) }
    ensures owner { (first body : Line) → (run (start first) (handover body)).node 0 ≡ absent }
{}

/// The owner gives the line back while the home calls for it: the home keeps the line that came,
/// and the INV is answered by ACKC.
#[tactic(auto, unfolding(crate::specs::Worked::worked_runs))]
pub fn line_crosses_its_recall()
    ensures legal { (first body : Line) → IsLegalRun 2 (start first) (crossing body) }
    ensures home { (first body : Line) → (run (start first) (crossing body)).home ≡ record { state = RO; pointers = one_node 1; acks = 0; body = body } }
    ensures reader { (first body : Line) → ((run (start first) (crossing body)).node 1).copy ≡ Some (Read, body) }
    ensures owner { (first body : Line) → (run (start first) (crossing body)).node 0 ≡ absent }
{}

/// A write waits for both of two readers.
#[tactic(auto, unfolding(crate::specs::Worked::worked_runs))]
pub fn two_answers_are_awaited()
    ensures legal { (first : Line) → IsLegalRun 3 (start first) (one_answered ++ both_answered) }
    ensures one { (first : Line) → (run (start first) one_answered).home ≡ record { state = WT; pointers = one_node 2; acks = 1; body = first } }
    ensures waits { (first : Line) → ((run (start first) one_answered).node 2).down ≡ [] }
    ensures both { (first : Line) → (run (start first) (one_answered ++ both_answered)).home ≡ record { state = RW; pointers = one_node 2; acks = 0; body = first } }
    ensures writer { (first : Line) → ((run (start first) (one_answered ++ both_answered)).node 2).down ≡ WDATA first ∷ [] }
{}
