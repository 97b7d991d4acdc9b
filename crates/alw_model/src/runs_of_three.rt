ghost use Rattle.std.specs.Prelude.{◌≡◌, ◌∷◌, [], true, None};
ghost use Rattle.alw_num.specs.NodeSets.{add_node, one_node};
ghost use Rattle.alw_image.specs.Images.{zero_line};
ghost use Rattle.alw_num.specs.declared.states.State.TheVariants.{RO, RW, WT};
ghost use Rattle.alw_num.specs.declared.states.Meta.TheVariants.{Normal, TrapWrite};
ghost use Rattle.alw_msg.specs.declared.messages.Kind.TheVariants as kinds;
ghost use Rattle.alw_model.specs.Checks.{stays_sound};
ghost use Rattle.alw_model.specs.Machine.{state, is_legal, end_of};
ghost use Rattle.alw_model.specs.Counts.{memory_words, directory_lines};
ghost use Rattle.alw_model.specs.Runs.{full_map_after};
ghost use Rattle.alw_model.specs.Rows.{is_flat, defaults, sent, entry_after};
ghost use Rattle.alw_model.specs.Rows.ThreeNodes.{spill_image, one_pointer, spill_handled, spill_journal, all_in_software, in_both, both_journal, one_answer, silent_journal, crossing_image, crossing_stored, crossing_journal};

/// A second reader overflows an entry's one pointer, so that software takes both readers; the third
/// one is hardware's again.
#[tactic(auto, unfolding(crate::specs::Rows::closed_runs, crate::specs::Rows::ThreeNodes::three_node_runs))]
pub fn spill()
    ensures legal { is_legal spill_image one_pointer spill_journal ≡ true }
    ensures sound { stays_sound spill_image one_pointer spill_journal ≡ true }
    ensures software { directory_lines spill_image (state spill_image one_pointer spill_handled)
        ≡ record { line = 0; state = RO; meta = TrapWrite; hardware = []; software = 0 ∷ 1 ∷ []; acks = 0 } ∷ [] }
    ensures full_map { full_map_after spill_image one_pointer spill_journal 0
        ≡ record { state = RO; pointers = add_node (add_node (one_node 0) 1) 2; acks = 0; body = zero_line } }
    ensures hardware { directory_lines spill_image (state spill_image one_pointer spill_journal)
        ≡ record { line = 0; state = RO; meta = TrapWrite; hardware = 2 ∷ []; software = 0 ∷ 1 ∷ []; acks = 0 } ∷ [] }
{}

/// A node that stands in the hardware pointers and in the software set counts once: a write sends it
/// one INV and waits for one answer.
#[tactic(auto, unfolding(crate::specs::Rows::closed_runs, crate::specs::Rows::ThreeNodes::three_node_runs))]
pub fn one_node_in_both_sets()
    ensures legal { is_legal spill_image one_pointer both_journal ≡ true }
    ensures sound { stays_sound spill_image one_pointer both_journal ≡ true }
    ensures software { directory_lines spill_image (state spill_image one_pointer all_in_software)
        ≡ record { line = 0; state = RO; meta = TrapWrite; hardware = []; software = 0 ∷ 1 ∷ 2 ∷ []; acks = 0 } ∷ [] }
    ensures both { directory_lines spill_image (state spill_image one_pointer in_both)
        ≡ record { line = 0; state = RO; meta = TrapWrite; hardware = 1 ∷ []; software = 0 ∷ 1 ∷ 2 ∷ []; acks = 0 } ∷ [] }
    ensures full_map { full_map_after spill_image one_pointer both_journal 0 ≡ record { state = WT; pointers = one_node 0; acks = 2; body = zero_line } }
    ensures write { directory_lines spill_image (state spill_image one_pointer both_journal)
        ≡ record { line = 0; state = WT; meta = Normal; hardware = 0 ∷ []; software = []; acks = 2 } ∷ [] }
{}

/// A copy that was dropped silently is invalidated all the same, and its node answers ACKC.
#[tactic(auto, unfolding(crate::specs::Rows::closed_runs, crate::specs::Rows::ThreeNodes::three_node_runs))]
pub fn silent_drop()
    ensures legal { is_legal spill_image one_pointer silent_journal ≡ true }
    ensures sound { stays_sound spill_image one_pointer silent_journal ≡ true }
    ensures sends { sent spill_image one_pointer silent_journal
        ≡ [] ∷ ((0, kinds.RREQ, 0) ∷ []) ∷ ((0, kinds.RDATA, 0) ∷ []) ∷ [] ∷ [] ∷ ((0, kinds.RREQ, 0) ∷ []) ∷ [] ∷ ((1, kinds.RDATA, 0) ∷ []) ∷
        [] ∷ ((0, kinds.RREQ, 0) ∷ []) ∷ ((2, kinds.RDATA, 0) ∷ []) ∷
        [] ∷ [] ∷ [] ∷ [] ∷ ((0, kinds.RREQ, 0) ∷ []) ∷ [] ∷ ((0, kinds.RDATA, 0) ∷ []) ∷
        [] ∷ [] ∷ [] ∷ ((0, kinds.RREQ, 0) ∷ []) ∷ ((1, kinds.RDATA, 0) ∷ []) ∷
        [] ∷ ((0, kinds.WREQ, 0) ∷ []) ∷ [] ∷ ((1, kinds.INV, 0) ∷ (2, kinds.INV, 0) ∷ []) ∷
        [] ∷ [] ∷ [] ∷ [] ∷ ((0, kinds.ACKC, 0) ∷ []) ∷ ((0, kinds.ACKC, 0) ∷ []) ∷ [] ∷ ((0, kinds.WDATA, 0) ∷ []) ∷ [] }
    ensures counted { (entry_after spill_image one_pointer one_answer).acks ≡ 1 }
    ensures owner { directory_lines spill_image (state spill_image one_pointer silent_journal)
        ≡ record { line = 0; state = RW; meta = Normal; hardware = 0 ∷ []; software = []; acks = 0 } ∷ [] }
    ensures flat { is_flat spill_image one_pointer silent_journal ≡ true }
{}

/// A REPM crosses the INV for the same copy: the home stores its body in the transaction, the late
/// request is refused, and the INV is answered ACKC.
#[tactic(auto, unfolding(crate::specs::Rows::closed_runs, crate::specs::Rows::ThreeNodes::three_node_runs))]
pub fn crossing_messages()
    ensures legal { is_legal crossing_image defaults crossing_journal ≡ true }
    ensures sound { stays_sound crossing_image defaults crossing_journal ≡ true }
    ensures stored { entry_after crossing_image defaults crossing_stored
        ≡ record (entry_after crossing_image defaults crossing_stored) { state = WT; acks = 1; body = record { a = 1; b = 0; c = 0; d = 0 } } }
    ensures sends { sent crossing_image defaults crossing_journal
        ≡ [] ∷ ((0, kinds.WREQ, 0) ∷ []) ∷ ((1, kinds.WDATA, 0) ∷ []) ∷ [] ∷ [] ∷ ((0, kinds.REPM, 1) ∷ []) ∷ ((0, kinds.RREQ, 0) ∷ []) ∷
        [] ∷ ((0, kinds.WREQ, 0) ∷ []) ∷ ((1, kinds.INV, 0) ∷ []) ∷ [] ∷
        ((1, kinds.BUSY, 0) ∷ []) ∷ ((0, kinds.ACKC, 0) ∷ []) ∷ [] ∷ ((2, kinds.WDATA, 1) ∷ []) ∷ [] ∷ [] ∷ ((0, kinds.RREQ, 0) ∷ []) ∷ [] }
    ensures full_map { full_map_after crossing_image defaults crossing_stored 0
        ≡ record { state = WT; pointers = one_node 2; acks = 1; body = record { a = 1; b = 0; c = 0; d = 0 } } }
    ensures memory { memory_words crossing_image defaults (state crossing_image defaults crossing_journal) ≡ (0x40000000, 2) ∷ [] }
    ensures flat { is_flat crossing_image defaults crossing_journal ≡ true }
    ensures unfinished { end_of crossing_image defaults (state crossing_image defaults crossing_journal) ≡ None }
{}
