ghost use Rattle.std.specs.Prelude.{◌≡◌, ◌∷◌, ◌++◌, [], true, false, Some, None, find};
ghost use Rattle.alw_num.specs.declared.states.State.TheVariants.{RO, RW};
ghost use Rattle.alw_num.specs.declared.states.Meta.TheVariants.{Normal};
ghost use Rattle.alw_num.specs.declared.states.Mode.TheVariants.{Write};
ghost use Rattle.alw_msg.specs.declared.messages.Kind.TheVariants as kinds;
ghost use Rattle.sparc_table.specs.declared.outcomes.Outcome.TheVariants as ends;
ghost use Rattle.alw_model.specs.declared.steps.Did.TheVariants.{Turn, Missed, Took};
ghost use Rattle.alw_num.specs.Maps.{value_at};
ghost use Rattle.alw_model.specs.Checks.{stays_sound};
ghost use Rattle.alw_msg.specs.declared.events.Event.TheVariants.{Instr};
ghost use Rattle.alw_model.specs.Machine.{state, node_at, link_at, is_legal, is_enabled, main_events, end_of, Halted, Trapped, Limit};
ghost use Rattle.alw_model.specs.Ends.{first_trap};
ghost use Rattle.alw_model.specs.Counts.{counts_of, memory_words, directory_lines};
ghost use Rattle.alw_model.specs.Runs.{turns_of, prints_of, moments};
ghost use Rattle.alw_model.specs.Rows.{is_flat, I, defaults, dids, sent};
ghost use Rattle.alw_model.specs.Rows.OneNode.{itself_image, itself_journal, contexts_image, contexts_journal, set_image, four_sets, set_journal, trap_image, trap_journal, loop_image, limit_3, loop_journal};

/// A node stores 5 in a line, loads it and prints it: its messages go over its link to itself.
#[tactic(auto, unfolding(crate::specs::Rows::closed_runs, crate::specs::Rows::OneNode::one_node_runs))]
pub fn link_to_itself()
    ensures legal { is_legal itself_image defaults itself_journal ≡ true }
    ensures sound { stays_sound itself_image defaults itself_journal ≡ true }
    ensures ends { end_of itself_image defaults (state itself_image defaults itself_journal) ≡ Some Halted }
    ensures did { dids itself_image defaults itself_journal
        ≡ Turn 0 ends.Done ∷ Turn 0 ends.Done ∷ Missed 0 ∷ Took ∷ Took ∷ Turn 0 ends.Done ∷ Turn 0 ends.Done ∷ Turn 0 ends.Done ∷ Turn 0 (ends.Out 5) ∷ Turn 0 ends.Halt ∷ [] }
    ensures sends { sent itself_image defaults itself_journal
        ≡ [] ∷ [] ∷ ((0, kinds.WREQ, 0) ∷ []) ∷ ((0, kinds.WDATA, 0) ∷ []) ∷ [] ∷ [] ∷ [] ∷ [] ∷ [] ∷ [] ∷ [] }
    ensures turns { turns_of itself_image defaults itself_journal ≡ 0 ∷ 0 ∷ 0 ∷ 0 ∷ 0 ∷ 0 ∷ 0 ∷ [] }
    ensures counts { counts_of itself_image (moments itself_image defaults itself_journal)
        ≡ record {
          entries = 10;
          turns = 7;
          misses = 1;
          evicts = 0;
          rreq = 0;
          wreq = 1;
          repm = 0;
          update = 0;
          ackc = 0;
          rdata = 0;
          wdata = 1;
          inv = 0;
          busy = 0;
          hops = 0;
          handlers = 0;
          spills = 0;
          replies = 1;
          used = 1;
        } }
    ensures prints { prints_of itself_image defaults itself_journal ≡ (0, 5) ∷ [] }
    ensures flat { is_flat itself_image defaults itself_journal ≡ true }
    ensures memory { memory_words itself_image defaults (state itself_image defaults itself_journal) ≡ (0x40000000, 5) ∷ [] }
    ensures directory { directory_lines itself_image (state itself_image defaults itself_journal)
        ≡ record { line = 0; state = RW; meta = Normal; hardware = 0 ∷ []; software = []; acks = 0 } ∷ [] }
{}

/// Two contexts of a node access one line: the second waits without a request of its own.
#[tactic(auto, unfolding(crate::specs::Rows::closed_runs, crate::specs::Rows::OneNode::one_node_runs))]
pub fn two_contexts_one_line()
    ensures legal { is_legal contexts_image defaults contexts_journal ≡ true }
    ensures sound { stays_sound contexts_image defaults contexts_journal ≡ true }
    ensures ends { end_of contexts_image defaults (state contexts_image defaults contexts_journal) ≡ Some Halted }
    ensures sends { sent contexts_image defaults contexts_journal
        ≡ [] ∷ ((0, kinds.RREQ, 0) ∷ []) ∷ [] ∷ [] ∷ ((0, kinds.RDATA, 0) ∷ []) ∷ [] ∷ ((0, kinds.WREQ, 0) ∷ []) ∷ [] ∷ [] ∷ ((0, kinds.WDATA, 0) ∷ []) ∷ [] ∷ [] ∷ [] ∷ [] }
    ensures flat { is_flat contexts_image defaults contexts_journal ≡ true }
    ensures turns { turns_of contexts_image defaults contexts_journal ≡ 0 ∷ 1 ∷ 0 ∷ 0 ∷ 1 ∷ 1 ∷ [] }
    ensures counts { counts_of contexts_image (moments contexts_image defaults contexts_journal)
        ≡ record {
          entries = 13;
          turns = 6;
          misses = 3;
          evicts = 0;
          rreq = 1;
          wreq = 1;
          repm = 0;
          update = 0;
          ackc = 0;
          rdata = 1;
          wdata = 1;
          inv = 0;
          busy = 0;
          hops = 0;
          handlers = 0;
          spills = 0;
          replies = 2;
          used = 2;
        } }
    ensures memory { memory_words contexts_image defaults (state contexts_image defaults contexts_journal) ≡ (0x40000000, 2) ∷ [] }
{}

/// Two lines of one set: the second takes the place of the first, which goes home.
#[tactic(auto, unfolding(crate::specs::Rows::closed_runs, crate::specs::Rows::OneNode::one_node_runs))]
pub fn one_set()
    ensures legal { is_legal set_image four_sets set_journal ≡ true }
    ensures sound { stays_sound set_image four_sets set_journal ≡ true }
    ensures cached { value_at (node_at (state set_image four_sets set_journal) 0).cache 0
        ≡ Some (record { line = 4; mode = Write; body = record { a = 0; b = 0; c = 0; d = 0 } }) }
    ensures link { link_at set_image (state set_image four_sets set_journal) 0 0
        ≡ record { kind = kinds.REPM; line = record { 0 = 0 }; src = record { 0 = 0 }; stamp = 8; body = record { a = 1; b = 0; c = 0; d = 0 } } ∷ [] }
{}

/// A load at an address that isn't a multiple of 4 traps, and the run ends so.
#[tactic(auto, unfolding(crate::specs::Rows::closed_runs, crate::specs::Rows::OneNode::one_node_runs))]
pub fn trap_ends()
    ensures legal { is_legal trap_image defaults trap_journal ≡ true }
    ensures sound { stays_sound trap_image defaults trap_journal ≡ true }
    ensures did { dids trap_image defaults trap_journal ≡ Turn 0 ends.Done ∷ Turn 0 (ends.Trap 0x07) ∷ [] }
    ensures ends { end_of trap_image defaults (state trap_image defaults trap_journal) ≡ Some Trapped }
    ensures trap { first_trap 0 (moments trap_image defaults trap_journal) ≡ Some (record { entry = 1; node = 0; slot = 0; pc = 4; tt = 0x07 }) }
{}

/// A run that goes on for ever ends at its limit, and a further event isn't legal.
#[tactic(auto, unfolding(crate::specs::Rows::closed_runs, crate::specs::Rows::OneNode::one_node_runs))]
pub fn limit_ends()
    ensures legal { is_legal loop_image limit_3 loop_journal ≡ true }
    ensures sound { stays_sound loop_image limit_3 loop_journal ≡ true }
    ensures ends { end_of loop_image limit_3 (state loop_image limit_3 loop_journal) ≡ Some Limit }
    ensures event { find (λ e. is_enabled loop_image limit_3 (state loop_image limit_3 loop_journal) e) (main_events loop_image) ≡ Some (Instr (record { 0 = 0 })) }
    ensures further { is_legal loop_image limit_3 (loop_journal ++ I 4 0 ∷ []) ≡ false }
{}
