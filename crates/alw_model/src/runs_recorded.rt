ghost use Rattle.std.specs.Prelude.{◌≡◌, ◌∷◌, [], true, Some};
ghost use Rattle.alw_num.specs.declared.states.State.TheVariants.{RO, RW};
ghost use Rattle.alw_num.specs.declared.states.Meta.TheVariants.{Normal, TrapWrite};
ghost use Rattle.alw_model.specs.Checks.{stays_sound};
ghost use Rattle.alw_model.specs.Machine.{state, is_legal, end_of, Halted};
ghost use Rattle.alw_model.specs.Counts.{counts_of, memory_words, directory_lines};
ghost use Rattle.alw_model.specs.Runs.{moments, prints_of};
ghost use Rattle.alw_model.specs.Rows.{is_flat};
ghost use Rattle.alw_model.specs.Rows.Recorded.{recorded_image, recorded_parameters, recorded_journal};

/// A run of 260 entries that another simulator of the same rules recorded, with that one's report:
/// spills, silent drops, crossing messages and refused requests, over two contexts a node.
#[tactic(auto, unfolding(crate::specs::Rows::closed_runs, crate::specs::Rows::Recorded::recorded_run_words))]
pub fn recorded_run()
    ensures legal { is_legal recorded_image recorded_parameters recorded_journal ≡ true }
    ensures sound { stays_sound recorded_image recorded_parameters recorded_journal ≡ true }
    ensures ends { end_of recorded_image recorded_parameters (state recorded_image recorded_parameters recorded_journal) ≡ Some Halted }
    ensures flat { is_flat recorded_image recorded_parameters recorded_journal ≡ true }
    ensures counts { counts_of recorded_image (moments recorded_image recorded_parameters recorded_journal)
        ≡ record (counts_of recorded_image (moments recorded_image recorded_parameters recorded_journal)) {
          entries = 260;
          turns = 78;
          misses = 39;
          evicts = 11;
          rreq = 14;
          wreq = 25;
          repm = 4;
          update = 14;
          ackc = 7;
          rdata = 14;
          wdata = 21;
          inv = 21;
          busy = 4;
          hops = 116;
          handlers = 8;
          spills = 5;
        } }
    ensures prints { prints_of recorded_image recorded_parameters recorded_journal
        ≡ (0, 0) ∷ (3, 3) ∷ (5, 5) ∷ (0, 0) ∷ (0, 0) ∷ (5, 5) ∷ (0, 0) ∷ (3, 3) ∷ (5, 5) ∷ (3, 3) ∷ (5, 5) ∷ (3, 3) ∷ [] }
    ensures memory { memory_words recorded_image recorded_parameters (state recorded_image recorded_parameters recorded_journal) ≡ [] }
    ensures directory { directory_lines recorded_image (state recorded_image recorded_parameters recorded_journal)
        ≡ record { line = 1; state = RW; meta = Normal; hardware = 1 ∷ []; software = []; acks = 0 } ∷
        record { line = 2; state = RW; meta = Normal; hardware = 1 ∷ []; software = []; acks = 0 } ∷
        record { line = 3; state = RO; meta = TrapWrite; hardware = 1 ∷ []; software = 0 ∷ 2 ∷ []; acks = 0 } ∷
        record { line = 4; state = RW; meta = Normal; hardware = 1 ∷ []; software = []; acks = 0 } ∷
        record { line = 5; state = RO; meta = TrapWrite; hardware = 1 ∷ []; software = 0 ∷ 2 ∷ []; acks = 0 } ∷ [] }
{}
