ghost use Rattle.std.specs.Prelude.{◌≡◌, ◌∷◌, ◌++◌, [], true, false, Some, None};
ghost use Rattle.alw_num.specs.declared.states.State.TheVariants.{RO, WT, RW};
ghost use Rattle.alw_num.specs.declared.states.Meta.TheVariants.{Normal};
ghost use Rattle.alw_msg.specs.declared.events.Event.TheVariants.{Deliver, Evict};
ghost use Rattle.alw_msg.specs.declared.messages.Kind.TheVariants as kinds;
ghost use Rattle.sparc_table.specs.declared.outcomes.Outcome.TheVariants as ends;
ghost use Rattle.alw_model.specs.declared.steps.Did.TheVariants.{Turn, Missed, Took, Packet, Handled, Evicted};
ghost use Rattle.alw_model.specs.Checks.{stays_sound};
ghost use Rattle.alw_model.specs.Machine.{state, is_legal, end_of, Halted};
ghost use Rattle.alw_model.specs.Flat.{AreReady};
ghost use Rattle.alw_model.specs.Counts.{counts_of, count_holds, memory_words, directory_lines};
ghost use Rattle.alw_model.specs.Runs.{turns_of, prints_of, moments};
ghost use Rattle.alw_model.specs.Threads.{merged, LinksAgree};
ghost use Rattle.alw_model.specs.Rows.{is_flat, I, H, D, defaults, dids, sent, is_enabled_after, logs_of};
ghost use Rattle.alw_model.specs.Rows.TwoNodes.{writers_image, writers_before, writers_journal, hold_before, hold_journal, always_image, always_journal, progress_before};

/// Two nodes store in one line in turn, and the first then loads it: INV takes the line from its
/// owner, which answers UPDATE.
#[tactic(auto, unfolding(crate::specs::Rows::closed_runs, crate::specs::Rows::TwoNodes::two_node_runs))]
pub fn two_writers()
    ensures legal { is_legal writers_image defaults writers_journal ≡ true }
    ensures sound { stays_sound writers_image defaults writers_journal ≡ true }
    ensures ends { end_of writers_image defaults (state writers_image defaults writers_journal) ≡ Some Halted }
    ensures did { dids writers_image defaults writers_journal
        ≡ Turn 0 ends.Done ∷ Missed 0 ∷ Took ∷ Took ∷ Turn 0 ends.Done ∷ Turn 0 ends.Done ∷ Missed 0 ∷ Took ∷ Took ∷ Took ∷ Took ∷
        Turn 0 ends.Done ∷ Turn 0 ends.Halt ∷ Missed 0 ∷ Took ∷ Took ∷ Took ∷ Took ∷ Turn 0 ends.Done ∷ Turn 0 (ends.Out 1) ∷ Turn 0 ends.Halt ∷ [] }
    ensures sends { sent writers_image defaults writers_journal
        ≡ [] ∷ ((0, kinds.WREQ, 0) ∷ []) ∷ ((0, kinds.WDATA, 0) ∷ []) ∷ [] ∷ [] ∷ [] ∷ ((0, kinds.WREQ, 0) ∷ []) ∷
        ((0, kinds.INV, 0) ∷ []) ∷ ((0, kinds.UPDATE, 2) ∷ []) ∷ ((1, kinds.WDATA, 2) ∷ []) ∷ [] ∷ [] ∷ [] ∷ ((0, kinds.RREQ, 0) ∷ []) ∷
        ((1, kinds.INV, 0) ∷ []) ∷ ((0, kinds.UPDATE, 1) ∷ []) ∷ ((0, kinds.RDATA, 1) ∷ []) ∷ [] ∷ [] ∷ [] ∷ [] ∷ [] }
    ensures turns { turns_of writers_image defaults writers_journal ≡ 0 ∷ 0 ∷ 1 ∷ 1 ∷ 1 ∷ 0 ∷ 0 ∷ 0 ∷ [] }
    ensures counts { counts_of writers_image (moments writers_image defaults writers_journal)
        ≡ record {
          entries = 21;
          turns = 8;
          misses = 3;
          evicts = 0;
          rreq = 1;
          wreq = 2;
          repm = 0;
          update = 2;
          ackc = 0;
          rdata = 1;
          wdata = 2;
          inv = 2;
          busy = 0;
          hops = 4;
          handlers = 0;
          spills = 0;
          replies = 3;
          used = 3;
        } }
    ensures prints { prints_of writers_image defaults writers_journal ≡ (0, 1) ∷ [] }
    ensures ready { AreReady writers_image (turns_of writers_image defaults writers_journal) }
    ensures flat { is_flat writers_image defaults writers_journal ≡ true }
    ensures directory { directory_lines writers_image (state writers_image defaults writers_journal)
        ≡ record { line = 0; state = RO; meta = Normal; hardware = 0 ∷ []; software = []; acks = 0 } ∷ [] }

    // Before the last entry no end holds, and another stamp isn't legal.
    ensures unfinished { end_of writers_image defaults (state writers_image defaults writers_before) ≡ None }
    ensures stamped { is_legal writers_image defaults (I 1 0 ∷ I 2 0 ∷ D 4 0 0 ∷ []) ≡ false }
{}

/// The logs of the two nodes of that run merge into another journal of it, by stamp and then by node.
#[tactic(auto, unfolding(crate::specs::Rows::closed_runs, crate::specs::Rows::TwoNodes::two_node_runs))]
pub fn two_logs_merge()
    ensures merge { merged (logs_of writers_image defaults writers_journal)
        ≡ I 1 0 ∷ I 1 1 ∷ I 2 0 ∷ I 2 1 ∷ D 3 0 0 ∷ D 4 0 0 ∷ I 5 0 ∷ D 6 1 0 ∷ D 7 0 0 ∷ D 8 0 0 ∷ I 9 0 ∷ D 9 0 1 ∷ D 10 0 0 ∷ I 10 1 ∷
        I 11 1 ∷ D 12 0 1 ∷ D 13 1 0 ∷ D 14 0 0 ∷ I 15 0 ∷ I 16 0 ∷ I 17 0 ∷ [] }
    ensures legal { is_legal writers_image defaults (merged (logs_of writers_image defaults writers_journal)) ≡ true }
    ensures turns { turns_of writers_image defaults (merged (logs_of writers_image defaults writers_journal)) ≡ 0 ∷ 1 ∷ 0 ∷ 1 ∷ 1 ∷ 0 ∷ 0 ∷ 0 ∷ [] }
    ensures agree { LinksAgree (logs_of writers_image defaults writers_journal) }
{}

/// A line that arrived for a context stays until that context has used it: the INV for it waits, and
/// so does an eviction.
#[tactic(auto, unfolding(crate::specs::Rows::closed_runs, crate::specs::Rows::TwoNodes::two_node_runs))]
pub fn hold_until_used()
    ensures held { is_legal writers_image defaults hold_before ≡ true }
    ensures one { count_holds (state writers_image defaults hold_before) ≡ 1 }
    ensures inv_waits { is_enabled_after writers_image defaults hold_before (Deliver (record { 0 = 0 }) (record { 0 = 0 })) ≡ false }
    ensures evict_waits { is_enabled_after writers_image defaults hold_before (Evict (record { 0 = 0 }) 0) ≡ false }
    ensures legal { is_legal writers_image defaults hold_journal ≡ true }
    ensures sound { stays_sound writers_image defaults hold_journal ≡ true }
    ensures sends { sent writers_image defaults hold_journal
        ≡ [] ∷ ((0, kinds.WREQ, 0) ∷ []) ∷ ((0, kinds.WDATA, 0) ∷ []) ∷ [] ∷ ((0, kinds.WREQ, 0) ∷ []) ∷ ((0, kinds.INV, 0) ∷ []) ∷ [] ∷ [] ∷ ((0, kinds.UPDATE, 2) ∷ []) ∷ [] }
    ensures replies { (counts_of writers_image (moments writers_image defaults hold_journal)).replies ≡ 1 }
    ensures used { (counts_of writers_image (moments writers_image defaults hold_journal)).used ≡ 1 }
    ensures none { count_holds (state writers_image defaults hold_journal) ≡ 0 }
{}

/// A Trap-Always line: the handler acts on every message, and the line stays Trap-Always.
#[tactic(auto, unfolding(crate::specs::Rows::closed_runs, crate::specs::Rows::TwoNodes::two_node_runs))]
pub fn trap_always()
    ensures legal { is_legal always_image defaults always_journal ≡ true }
    ensures sound { stays_sound always_image defaults always_journal ≡ true }
    ensures ends { end_of always_image defaults (state always_image defaults always_journal) ≡ Some Halted }
    ensures did { dids always_image defaults always_journal
        ≡ Turn 0 ends.Done ∷ Missed 0 ∷ Packet ∷ Handled kinds.RREQ RO ∷ Took ∷ Turn 0 ends.Done ∷ Turn 0 ends.Done ∷ Missed 0 ∷ Packet ∷ Handled kinds.WREQ RO ∷
        Took ∷ Packet ∷ Handled kinds.ACKC WT ∷ Took ∷ Turn 0 ends.Done ∷ Evicted ∷ Packet ∷ Handled kinds.REPM RW ∷ Turn 0 ends.Halt ∷ Turn 0 ends.Halt ∷ [] }
    ensures counts { counts_of always_image (moments always_image defaults always_journal)
        ≡ record {
          entries = 20;
          turns = 6;
          misses = 2;
          evicts = 1;
          rreq = 1;
          wreq = 1;
          repm = 1;
          update = 0;
          ackc = 1;
          rdata = 1;
          wdata = 1;
          inv = 1;
          busy = 0;
          hops = 4;
          handlers = 4;
          spills = 1;
          replies = 2;
          used = 2;
        } }
    ensures turns { turns_of always_image defaults always_journal ≡ 1 ∷ 1 ∷ 0 ∷ 0 ∷ 0 ∷ 1 ∷ [] }
    ensures flat { is_flat always_image defaults always_journal ≡ true }
    ensures memory { memory_words always_image defaults (state always_image defaults always_journal) ≡ (0x40000000, 2) ∷ [] }
    ensures directory { directory_lines always_image (state always_image defaults always_journal) ≡ [] }
{}

/// A message to memory stays at the head of its link while its line is Trans-In-Progress.
#[tactic(auto, unfolding(crate::specs::Rows::closed_runs, crate::specs::Rows::TwoNodes::two_node_runs))]
pub fn progress_blocks()
    ensures legal { is_legal always_image defaults progress_before ≡ true }
    ensures sound { stays_sound always_image defaults progress_before ≡ true }
    ensures waits { is_enabled_after always_image defaults progress_before (Deliver (record { 0 = 0 }) (record { 0 = 0 })) ≡ false }
    ensures handled { is_legal always_image defaults (progress_before ++ H 6 0 ∷ D 7 0 0 ∷ []) ≡ true }
{}
