ghost use Rattle.std.specs.Prelude.{◌≡◌, ◌≤◌, ℕ, true, length, Result, Err, List};
ghost use Rattle.alw_msg.specs.declared.events.Entry.{Entry};
ghost use Rattle.alw_image.specs.declared.parts.Parts.{Parts};
ghost use Rattle.alw_image.specs.Parameters.{Parameters};
ghost use Rattle.alw_model.specs.declared.ends.Ended.{Ended};
ghost use Rattle.alw_audit.specs.Claims.{claim_of};
ghost use Rattle.alw_trace.specs.Texts.{trace_text};
ghost use Rattle.alw_config.specs.declared.commands.Form.TheVariants as forms;
ghost use Rattle.std.specs.List.{AllByRecursion};
ghost use Rattle.law_order.specs.Orders.{kept_by};
ghost use Rattle.alw_mesh.specs.Histories.{History, state_of};
ghost use Rattle.alw_trace.specs.declared.values.Trace.{Trace};
ghost use Rattle.alw_trace.specs.Readings.{IsTrace, HasTraceTypes};
ghost use Rattle.alw_save.specs.declared.faults.RestoreErr.{RestoreErr};
ghost use Rattle.alw_save.specs.declared.faults.RestoreErr.TheVariants.{NoMemory};
ghost use Rattle.alw_save.specs.Cuts.{TraceIsSound, cut_machine};
ghost use Rattle.alw_save.specs.States.{state_text};
ghost use Rattle.alw_save.specs.Checkpoints.{checkpoint_text};
ghost use Rattle.alw_save.specs.Restoring.{IsCheckpoint, Restores, with_evict};
ghost use Rattle.alw_answers.specs.declared.outputs.Output.{Output};
ghost use Rattle.alw_answers.specs.declared.outputs.Refusal.{Refusal};
ghost use Rattle.alw_config.specs.declared.commands.AsmForm.TheVariants as asms;
ghost use Rattle.alw_answers.specs.Limits.{most_input};
ghost use Rattle.alw_answers.specs.Outputs.{Gives};
ghost use Rattle.alw_builds.specs.Assembling.{Assembles, asm_task};
ghost use Rattle.alw_builds.specs.ReadingBack.{ReadsBack};
ghost use Rattle.alw_checks.specs.Auditing.{Audits, IsNoClaim, FindsSound, IsSoundText, told_before};
ghost use Rattle.alw_runs.specs.Forms.{run_text, IsTold, IsToldBy};
ghost use Rattle.alw_runs.specs.Replaying.{IsFinishedText, IsRunThatFits, TakesAgain, Replays, TellsTheSame, ReportsTheSame, TellsAgain, trace_of};
ghost use Rattle.alw_times.specs.declared.costs.Costs.{Costs};
ghost use Rattle.alw_config.specs.declared.commands.TimeForm.{TimeForm};
ghost use Rattle.alw_config.specs.declared.commands.TimedForm.TheVariants.{Time};
ghost use Rattle.alw_cycles.specs.Timing.{time_text};
ghost use Rattle.alw_cycles.specs.ByTime.{timed_text};
ghost use Rattle.alw_image.specs.Numbers.{HasWords};
ghost use Rattle.alw_mesh.specs.Limits.{most_steps, most_timed_steps};
ghost use Rattle.alw_cuts.specs.Saving.{Saves};
ghost use Rattle.alw_cuts.specs.Resuming.{IsSomeCheckpoint, GoesOnBySeed, Resumes};
ghost use Rattle.alw_image.specs.Faults.{image_in};
ghost use Rattle.alw_model.specs.declared.ends.Ended.TheVariants.{Halted};
ghost use Rattle.alw_model.specs.Ends.{IsEnd};
ghost use Rattle.alw_report.specs.Reports.{told_of};
ghost use Rattle.alw_config.specs.declared.commands.AuditForm.{AuditForm};
ghost use Rattle.alw_config.specs.declared.commands.Form.{Form};
ghost use Rattle.alw_answers.specs.declared.outputs.Ending.TheVariants.{Fine};
ghost use Rattle.alw_endings.specs.Schedules.{TellsEveryRun};
ghost use Rattle.alw_endings.specs.declared.values.StuckRun.TheVariants.{No};
ghost use Rattle.alw_image.specs.Images.{node_count};
ghost use Rattle.alw_image.specs.Parameters.{AreParameters, parameters_for};
ghost use Rattle.law_turns.specs.Stuck.{NoneIsStuck, NoneIsStuckForever};
ghost use Rattle.law_endings.specs.Runs.{ComesToTold, TellsRuns};
ghost use Rattle.alw_orders.specs.Scheduling.{Schedules};
ghost use Rattle.alw_checks.specs.Searching.{Searches, TellsReport};

use law_texts::texts_tell_states;

/// A replay reports what the run reported. The trace of a run is accepted, and where its replay is
/// carried out, the journal and the end are the run's, and so is the report that is written: the text
/// of a trace doesn't say how often evictions are tried, and no legality, state or report depends on it.
pub fn traces_report_the_same()
    ensures accepted { (image : Parts) → (parameters : Parameters) → (journal : List Entry) → (ended : Ended) → IsRunThatFits most_steps image parameters journal ended →
        IsFinishedText most_steps (trace_text (trace_of image parameters journal)) }
    ensures same { (image : Parts) → (parameters : Parameters) → (journal : List Entry) → (ended : Ended) → IsRunThatFits most_steps image parameters journal ended →
        (output : Output) → Replays forms.Report (trace_text (trace_of image parameters journal)) output → ReportsTheSame image parameters journal ended output }
{}

/// The times that `time` tells of the trace of a run are those of the run, by whatever costs: the text of a trace doesn't
/// say how often evictions are tried, and no time depends on it. So what `time` tells of a timed run's trace, by the costs
/// that the run was timed by, is what the run itself tells.
pub fn traces_tell_their_times()
    ensures runs { (image : Parts) → (parameters : Parameters) → (journal : List Entry) → (ended : Ended) → IsRunThatFits most_timed_steps image parameters journal ended →
        (costs : Costs) → (form : TimeForm) → (output : Output) → TakesAgain most_timed_steps (time_text costs form) (trace_text (trace_of image parameters journal)) output →
        TellsTheSame (time_text costs form) image parameters journal ended output }
    ensures timed { (image : Parts) → (parameters : Parameters) → (costs : Costs) → (form : TimeForm) → (run : Output) → HasWords image →
        IsToldBy most_timed_steps (timed_text costs (Time form)) image parameters run →
        (again : Output) → TakesAgain most_timed_steps (time_text costs form) (trace_text (trace_of image parameters run.journal)) again → TellsAgain run again }
{}

/// What a run claims is found sound. The claim that `run` or `replay` writes of a run of an image that fits
/// is a claim's one text, with at most 8,388,608 turns, and an audit of it that is carried out answers
/// `sound`: it names no difference, and refuses nothing but for want of memory. In the form `log` this stands behind the log
/// of the run's turns on the flat memory.
pub fn claims_are_found_sound()
    ensures accepted { (image : Parts) → (parameters : Parameters) → (journal : List Entry) → (ended : Ended) → IsRunThatFits most_steps image parameters journal ended →
        IsSoundText (run_text forms.Claim image parameters journal ended) }
    ensures sound { (image : Parts) → (parameters : Parameters) → (journal : List Entry) → (ended : Ended) → IsRunThatFits most_steps image parameters journal ended →
        (form : AuditForm) → (result : Result Output Refusal) →
        Gives (Audits form (run_text forms.Claim image parameters journal ended)) (IsNoClaim (run_text forms.Claim image parameters journal ended)) result →
        FindsSound (told_before form (claim_of image parameters journal)) result }
{}

/// What `save` writes is a checkpoint that `resume` takes, however often evictions are then tried; and a checkpoint
/// is refused for want of memory alone.
pub fn checkpoints_are_resumed()
    ensures accepted { (trace : Trace) → (at : ℕ) → (evict : ℕ) → IsTrace trace → HasTraceTypes trace → TraceIsSound trace → evict ≤ 255 →
        IsSomeCheckpoint evict (checkpoint_text trace.image trace.params (kept_by at trace.journal)) }
    ensures unrefused { (bytes : List ℕ) → (evict : ℕ) → (machine : History) → IsCheckpoint bytes evict machine → (fault : RestoreErr) →
        Restores bytes evict (Err fault) → fault ≡ NoMemory }
{}

/// A checkpoint that is resumed by a seed is the run that goes on by that seed from the cut. Of what `save` wrote of a trace,
/// `resume` makes the trace's entries with at most the stamp, in the trace's order, and behind them what the seed's schedule
/// makes of the machine that they leave, under the trace's parameters with the evict that is given, up to an end. Nothing else
/// of the trace is in it: each journal that goes on so, up to an end, is this one.
pub fn saved_runs_go_on()
    ensures accepted { (at : ℕ) → (traced : List ℕ) → (saved : Output) → Saves at traced saved → (evict : ℕ) → evict ≤ 255 → IsSomeCheckpoint evict saved.text }
    ensures goes_on { (at : ℕ) → (traced : List ℕ) → (saved : Output) → (saves : Saves at traced saved) → (seed : ℕ) → (evict : ℕ) → (form : Form) → (resumed : Output) →
        Resumes seed evict form saved.text resumed → GoesOnBySeed (cut_machine (with_evict saves.trace evict) at) seed resumed.journal }
    ensures told { (at : ℕ) → (traced : List ℕ) → (saved : Output) → (saves : Saves at traced saved) → (seed : ℕ) → (evict : ℕ) → (form : Form) → (resumed : Output) →
        Resumes seed evict form saved.text resumed → IsTold saves.trace.image (with_evict saves.trace evict).params form resumed }
    ensures alone { (at : ℕ) → (traced : List ℕ) → (saved : Output) → (saves : Saves at traced saved) → (seed : ℕ) → (evict : ℕ) → (form : Form) → (resumed : Output) →
        Resumes seed evict form saved.text resumed → (journal : List Entry) → (ended : Ended) → GoesOnBySeed (cut_machine (with_evict saves.trace evict) at) seed journal →
        IsEnd saves.trace.image (with_evict saves.trace evict).params journal ended → journal ≡ resumed.journal }
{}

/// What a checkpoint says is all that matters of it. One text, of whatever traces, is resumed by one seed to one run. And of
/// two checkpoints of one image under the same parameters with the same lines of state, whatever entries came to that state,
/// one seed makes the same entries behind theirs.
pub fn states_go_on_alike()
    ensures texts { (seed : ℕ) → (evict : ℕ) → (form : Form) → (text : List ℕ) → (one : Output) → (other : Output) →
        Resumes seed evict form text one → Resumes seed evict form text other → TellsAgain one other }
    ensures states { (seed : ℕ) → (evict : ℕ) → (form : Form) → (other_form : Form) → (text : List ℕ) → (other_text : List ℕ) → (one : Output) → (other : Output) →
        (first : Resumes seed evict form text one) → (second : Resumes seed evict other_form other_text other) →
        first.machine.image ≡ second.machine.image → first.machine.parameters ≡ second.machine.parameters →
        state_text first.machine.image (state_of first.machine) ≡ state_text second.machine.image (state_of second.machine) →
        first.goes_on.later ≡ second.goes_on.later }
{
    texts_tell_states()
}

/// The trace of a run that came to an end, cut at no lower stamp than any of its entries has, is resumed to that run, by every
/// seed: to its journal, and to the report of its replay.
pub fn finished_runs_are_resumed()
    ensures same { (at : ℕ) → (traced : List ℕ) → (saved : Output) → (saves : Saves at traced saved) → IsFinishedText most_steps traced →
        AllByRecursion (λ (entry : Entry). entry.stamp ≤ at) saves.trace.journal → (seed : ℕ) → (evict : ℕ) → (form : Form) → (resumed : Output) →
        Resumes seed evict form saved.text resumed → resumed.journal ≡ saves.trace.journal }
    ensures reports { (at : ℕ) → (traced : List ℕ) → (saved : Output) → (saves : Saves at traced saved) → IsFinishedText most_steps traced →
        AllByRecursion (λ (entry : Entry). entry.stamp ≤ at) saves.trace.journal → (seed : ℕ) → (evict : ℕ) → (resumed : Output) →
        Resumes seed evict forms.Report saved.text resumed → (again : Output) → Replays forms.Report traced again → TellsAgain again resumed }
{}

/// The log of a run tells the run: two runs, of whatever images, whose logs are one text have one journal.
pub fn logs_tell_runs()
    ensures { (image other_image : Parts) → (parameters other_parameters : Parameters) → (one other : Output) →
        IsTold image parameters forms.Log one → IsTold other_image other_parameters forms.Log other → one.text ≡ other.text → one.journal ≡ other.journal }
{}

/// What `outcomes` tells of an image has whatever a run of it comes to, where the search is complete. For every seed, all
/// parameters and any number of workers, after each legal journal: where all contexts have halted, an outcome with the
/// prints by context and the memory of the run's report is told; and the trap of each context that has trapped. So it is
/// of each output that tells a run of the image, as those of `run`, `replay` and `resume` do.
pub fn every_schedule_is_told()
    ensures runs { (most : ℕ) → (bytes : List ℕ) → (searched : Output) → (searches : Searches most bytes searched) → searches.told.is_complete ≡ true →
        (parameters : Parameters) → (form : Form) → (output : Output) → IsTold (image_in bytes) parameters form output → output.ending ≡ Fine →
        TellsReport (image_in bytes) searches.told (told_of (image_in bytes) parameters output.journal Halted) }
    ensures journals { (most : ℕ) → (bytes : List ℕ) → (output : Output) → (searches : Searches most bytes output) → searches.told.is_complete ≡ true →
        TellsEveryRun (image_in bytes) searches.told }
{}

/// What `outcomes` tells of an image with one context a node is of runs of the machine, under all parameters, whether the
/// search is complete or not. Each outcome and each trap is one of a legal journal that takes the turns told with it, with
/// these prints by context and this memory, or this trap; or the limit alone stands against these turns. Behind the turns
/// told for `stuck yes` no legal journal ends; and where `stuck no` is told, each legal journal can come to an end, where
/// the limit leaves room, and in any case under a greater one, as long as 32 bits are enough for the clocks.
pub fn told_ends_are_of_runs()
    ensures told { (most : ℕ) → (bytes : List ℕ) → (output : Output) → (searches : Searches most bytes output) → (image_in bytes).contexts ≡ 1 →
        (parameters : Parameters) → AreParameters parameters → TellsRuns (image_in bytes) parameters searches.told }
    ensures unstuck { (most : ℕ) → (bytes : List ℕ) → (output : Output) → (searches : Searches most bytes output) → (image_in bytes).contexts ≡ 1 →
        searches.told.stuck ≡ No → NoneIsStuck (image_in bytes) }
    ensures forever { (most : ℕ) → (bytes : List ℕ) → (output : Output) → (searches : Searches most bytes output) → (image_in bytes).contexts ≡ 1 →
        searches.told.stuck ≡ No → NoneIsStuckForever (image_in bytes) }
{}

/// What `schedule` makes of a claim with the turns that `outcomes` tells with an outcome or a trap comes to it, with however
/// many contexts a node: all contexts halt with these prints by context and this memory, or the context traps so.
pub fn told_turns_are_scheduled()
    ensures { (most : ℕ) → (bytes : List ℕ) → (searched : Output) → (searches : Searches most bytes searched) → (parameters : Parameters) → (claimed : List ℕ) → (output : Output) →
        (schedules : Schedules parameters claimed output) → schedules.claim.image ≡ image_in bytes → ComesToTold (image_in bytes) (parameters_for (node_count (image_in bytes)) parameters) searches.told output.journal }
{}

/// What `dis` writes of an image is a source that `asm` assembles to that image, byte for byte; and no longer than an
/// input may be.
pub fn sources_are_assembled()
    ensures accepted { (bytes : List ℕ) → (output : Output) → ReadsBack bytes output → (asm_task asms.Image).Accepts output.text }
    ensures same { (bytes : List ℕ) → (output : Output) → ReadsBack bytes output → (again : Output) → Assembles asms.Image output.text again → again.text ≡ bytes }
    ensures few { (bytes : List ℕ) → (output : Output) → ReadsBack bytes output → length output.text ≤ most_input }
{}
