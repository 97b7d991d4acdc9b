//! What is read and written for a command.

ghost use Rattle.std.specs.Prelude.{◌≡◌, ◌≤◌, length, IfOk};
ghost use Rattle.alw_answers.specs.Outputs.{cause_of};
ghost use Rattle.alw_cli.specs.Streams.{stream_of};
ghost use Rattle.alw_cli.specs.Answered.{Hands, Puts, Writes};

use alw_answers::{Cause, Done, Ending, InputErr, MOST_INPUT, Output, Refusal};
use alw_io::{ReadErr, Sink, Source, read_all, write_whole};
use alw_num::Bytes;
use std::alloc::Global;

/// The bytes that a command is handed: its whole input, or none where it reads nothing.
pub fn bytes_for<S: Source>(alloc: Global, reads: bool, input: &mut S) -> Result<Bytes, Cause>
    ensures hands { Hands reads
        (stream_of (S.left input.old) (S.faults input.old)) (stream_of (S.left input.new) (S.faults input.new)) result }
    ensures few { IfOk result (λ bytes. length bytes ≤ MOST_INPUT) }
    ensures input_count { S.faults input.old ≤ S.faults input.new }
{
    if !reads {
        return Ok(Bytes::empty(alloc));
    }
    match read_all(alloc, input, MOST_INPUT) {
        Ok(bytes) => Ok(bytes),
        Err(ReadErr::Failed) => Err(Cause::ReadFault),
        Err(ReadErr::TooLong) => Err(Cause::Input(InputErr::TooLong)),
        Err(ReadErr::NoMemory) => Err(Cause::NoMemory),
    }
}

/// Writes what a command made, and answers with its end; or answers why it made nothing.
pub fn write_made<K: Sink>(alloc: Global, made: Result<Output, Refusal>, out: &mut K) -> Done
    ensures puts { Puts made
        (stream_of (K.held out.old) (K.faults out.old)) (stream_of (K.held out.new) (K.faults out.new))
        result.cause result.journal result.merged }
    ensures out_count { K.faults out.old ≤ K.faults out.new }
{
    match made {
        Ok(output) => write_output(output, out),
        Err(Refusal::NoMemory) => Done::without(alloc, Cause::NoMemory),
        Err(Refusal::Fault(fault)) => Done::without(alloc, Cause::Input(fault)),
    }
}

// Writes the text of an output, and answers with its end.
fn write_output<K: Sink>(output: Output, out: &mut K) -> Done
    ensures writes { Writes output
        (stream_of (K.held out.old) (K.faults out.old)) (stream_of (K.held out.new) (K.faults out.new)) result.cause }
    ensures journal { result.journal ≡ output.journal }
    ensures merged { result.merged ≡ output.merged }
    ensures out_count { K.faults out.old ≤ K.faults out.new }
{
    let Output {
        text,
        ending,
        journal,
        merged,
    } = output;
    let whole = cause_of(ending);
    let cause = match write_whole(out, text.bytes()) {
        Ok(()) => whole,
        Err(_) => Cause::WriteFault,
    };
    Done::after(cause, journal, merged)
}

// The cause of an end.
fn cause_of(ending: Ending) -> Cause
    ensures { result ≡ cause_of ending }
{
    match ending {
        Ending::Fine => Cause::Fine,
        Ending::Trapped(at) => Cause::Trapped(at),
        Ending::Limit(event) => Cause::Limit(event),
        Ending::Differs(place, claimed, real) => Cause::Differs(place, claimed, real),
        Ending::MayTrap => Cause::MayTrap,
        Ending::MayNotEnd => Cause::MayNotEnd,
    }
}
