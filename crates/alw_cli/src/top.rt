ghost use Rattle.std.specs.Prelude.{◌≡◌, ◌≤◌, ℕ, List, map, string_bytes, IfOk, IfErr};
ghost use Rattle.alw_config.specs.Choices.{WorkIsWithin};
ghost use Rattle.alw_config.specs.Places.{AskFor};
ghost use Rattle.alw_config.specs.declared.commands.Asked.TheVariants as asked;
ghost use Rattle.alw_cli.specs.Answers.{Answers, IsComplete, Tells, task_for};
ghost use Rattle.alw_cli.specs.Headline.{Headline};
ghost use Rattle.alw_cli.specs.Streams.{Stays, stream_of};
ghost use Rattle.alw_cli.specs.Answered.{Answered};

use crate::commands::carry_out;
use crate::streams::{bytes_for, write_made};
use alw_answers::{Cause, Done, err_line};
use alw_config::{Asked, Work, asked};
use alw_io::{Sink, Source, write_whole};
use alw_threads::work_bytes;
use alw_work::Gate;
use std::alloc::Global;
use std::sync::Wait;
use std::thread::Threads;

/// Does what the command words ask for, where that waits for nobody: reads `input` to its end, assembles the source,
/// runs the image, replays, routes, saves or times the trace, resumes the checkpoint, audits the claim or schedules its
/// turns, searches what the image that it is can come to or writes its source, or else makes a workload and reads
/// nothing, and writes what comes of it to `out`. A refusal, a fault of the outside and want of memory have a line on
/// `err`. Where the words ask for workers, nothing is read or written, and what is asked of them is handed back, for
/// [`alewife_by_workers`].
///
/// The call is given no runtime, so it returns.
///
/// The status follows from the cause: 0 is a source that was assembled or written, a workload that was made, a run that
/// halted, messages that arrived, a checkpoint that was written, a claim that is sound or an image that no order of
/// turns brings to a trap or to a place from which no turns lead to an end, 2 refused words, 3 a refused input, 4 a
/// trapped run or an order of turns that traps, 5 a run at its limit or a search that isn't known to reach an end from
/// each place, 6 a read fault, 7 a write fault, 8 want of memory and 9 a claim that isn't sound.
pub fn alewife<S: Source, K: Sink, E: Sink>(
    alloc: Global,
    words: &[String],
    input: &mut S,
    out: &mut K,
    err: &mut E,
) -> Result<Done, Work>
    ensures answers { IfOk result (λ done. Answers (map string_bytes words.now)
        (stream_of (S.left input.old) (S.faults input.old)) (stream_of (S.left input.new) (S.faults input.new))
        (stream_of (K.held out.old) (K.faults out.old)) (stream_of (K.held out.new) (K.faults out.new))
        done.cause done.journal done.merged) }
    ensures headline { IfOk result (λ done. Headline (map string_bytes words.now)
        (stream_of (S.left input.old) (S.faults input.old)) (stream_of (S.left input.new) (S.faults input.new))
        done.cause done.journal) }
    ensures complete { IfOk result (λ done. IsComplete (map string_bytes words.now)
        (stream_of (S.left input.old) (S.faults input.old)) (stream_of (S.left input.new) (S.faults input.new))
        (stream_of (K.held out.old) (K.faults out.old)) (stream_of (K.held out.new) (K.faults out.new))
        done.cause) }
    ensures err { IfOk result (λ done.
        Tells (stream_of (E.held err.old) (E.faults err.old)) (stream_of (E.held err.new) (E.faults err.new)) done.cause) }
    ensures workers { IfErr result (λ work. AskFor (map string_bytes words.now) (asked.Workers work)) }
    ensures within { IfErr result WorkIsWithin }
    ensures untouched { IfErr result (λ work.
        Stays (stream_of (S.left input.old) (S.faults input.old)) (stream_of (S.left input.new) (S.faults input.new))
        × Stays (stream_of (K.held out.old) (K.faults out.old)) (stream_of (K.held out.new) (K.faults out.new))
        × Stays (stream_of (E.held err.old) (E.faults err.old)) (stream_of (E.held err.new) (E.faults err.new))) }
    ensures input_count { S.faults input.old ≤ S.faults input.new }
    ensures out_count { K.faults out.old ≤ K.faults out.new }
    ensures err_count { E.faults err.old ≤ E.faults err.new }
{
    let done = answer(alloc, words, input, out)?;
    put_err_line(err, &done.cause);
    Ok(done)
}

/// Does what words ask of workers: reads `input` to its end, runs the image on threads that `rt` gives, and writes the
/// run to `out`. Each worker passes `gate` once a visit of a node, before it locks the node. The call may wait; what it
/// promises, of all words that ask for this work, holds where it returns.
pub fn alewife_by_workers<R: Threads + Wait + Sync, S: Source, K: Sink, E: Sink, G: Gate>(
    rt: &R,
    alloc: Global,
    work: &Work,
    input: &mut S,
    out: &mut K,
    err: &mut E,
    gate: &G,
) -> Done
    requires within { WorkIsWithin work.now }
    ensures answers { (words : List (List ℕ)) → AskFor words (asked.Workers work.now) → Answers words
        (stream_of (S.left input.old) (S.faults input.old)) (stream_of (S.left input.new) (S.faults input.new))
        (stream_of (K.held out.old) (K.faults out.old)) (stream_of (K.held out.new) (K.faults out.new))
        result.cause result.journal result.merged }
    ensures headline { (words : List (List ℕ)) → AskFor words (asked.Workers work.now) → Headline words
        (stream_of (S.left input.old) (S.faults input.old)) (stream_of (S.left input.new) (S.faults input.new))
        result.cause result.journal }
    ensures complete { (words : List (List ℕ)) → AskFor words (asked.Workers work.now) → IsComplete words
        (stream_of (S.left input.old) (S.faults input.old)) (stream_of (S.left input.new) (S.faults input.new))
        (stream_of (K.held out.old) (K.faults out.old)) (stream_of (K.held out.new) (K.faults out.new))
        result.cause }
    ensures err { Tells (stream_of (E.held err.old) (E.faults err.old)) (stream_of (E.held err.new) (E.faults err.new)) result.cause }
    ensures input_count { S.faults input.old ≤ S.faults input.new }
    ensures out_count { K.faults out.old ≤ K.faults out.new }
    ensures err_count { E.faults err.old ≤ E.faults err.new }
{
    let done = carry_out_by::<R, S, K, G>(rt, alloc, work, input, out, gate);
    put_err_line(err, &done.cause);
    done
}

// The same without the line on `err`.
fn answer<S: Source, K: Sink>(
    alloc: Global,
    words: &[String],
    input: &mut S,
    out: &mut K,
) -> Result<Done, Work>
    ensures answers { IfOk result (λ done. Answers (map string_bytes words.now)
        (stream_of (S.left input.old) (S.faults input.old)) (stream_of (S.left input.new) (S.faults input.new))
        (stream_of (K.held out.old) (K.faults out.old)) (stream_of (K.held out.new) (K.faults out.new))
        done.cause done.journal done.merged) }
    ensures workers { IfErr result (λ work. AskFor (map string_bytes words.now) (asked.Workers work)) }
    ensures within { IfErr result WorkIsWithin }
    ensures untouched { IfErr result (λ work. (input.new ≡ input.old) × (out.new ≡ out.old)) }
    ensures input_count { S.faults input.old ≤ S.faults input.new }
    ensures out_count { K.faults out.old ≤ K.faults out.new }
{
    match asked(words) {
        Err(e) => Ok(Done::without(alloc, Cause::Words(e))),
        Ok(Asked::Alone(command)) => Ok(carry_out(alloc, command, input, out)),
        Ok(Asked::Workers(work)) => Err(work),
    }
}

// Carries out a run by workers.
fn carry_out_by<R: Threads + Wait + Sync, S: Source, K: Sink, G: Gate>(
    rt: &R,
    alloc: Global,
    work: &Work,
    input: &mut S,
    out: &mut K,
    gate: &G,
) -> Done
    requires within { WorkIsWithin work.now }
    ensures answered { Answered (task_for (asked.Workers work.now))
        (stream_of (S.left input.old) (S.faults input.old)) (stream_of (S.left input.new) (S.faults input.new))
        (stream_of (K.held out.old) (K.faults out.old)) (stream_of (K.held out.new) (K.faults out.new))
        result.cause result.journal result.merged }
    ensures input_count { S.faults input.old ≤ S.faults input.new }
    ensures out_count { K.faults out.old ≤ K.faults out.new }
{
    let bytes = match bytes_for(alloc, true, input) {
        Ok(bytes) => bytes,
        Err(cause) => return Done::without(alloc, cause),
    };
    let made = work_bytes::<R, G>(
        rt,
        alloc,
        work.workers,
        &work.params,
        work.write,
        bytes.bytes(),
        gate,
    );
    write_made(alloc, made, out)
}

// Writes the line of an answer.
fn put_err_line<E: Sink>(err: &mut E, cause: &Cause)
    ensures tells { Tells (stream_of (E.held err.old) (E.faults err.old)) (stream_of (E.held err.new) (E.faults err.new)) cause.now }
    ensures err_count { E.faults err.old ≤ E.faults err.new }
{
    let line = err_line(cause);
    let _ = write_whole(err, line.as_str().as_bytes());
}
