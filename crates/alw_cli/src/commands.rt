//! The commands that wait for nobody. They are given no runtime, so each call of them returns.

ghost use Rattle.std.specs.Prelude.{◌≡◌, ◌≤◌, length};
ghost use Rattle.alw_config.specs.Choices.{CommandIsWithin};
ghost use Rattle.alw_answers.specs.Outputs.{Gives};
ghost use Rattle.alw_cli.specs.Answers.{task_of};
ghost use Rattle.alw_cli.specs.Streams.{stream_of};
ghost use Rattle.alw_cli.specs.Answered.{Answered};

use crate::streams::{bytes_for, write_made};
use alw_answers::{Done, MOST_INPUT, Output, Refusal};
use alw_builds::{assemble_source, make_workload, read_back};
use alw_checks::{audit_bytes, search_bytes};
use alw_config::Command;
use alw_cuts::{resume, route_bytes, save_bytes};
use alw_cycles::{run_by_time, time_bytes};
use alw_io::{Sink, Source};
use alw_orders::schedule_bytes;
use alw_runs::{replay_bytes, run_bytes};
use std::alloc::Global;

/// Carries out a command: reads `input` to its end, where it reads any, and writes what it makes to `out`.
pub fn carry_out<S: Source, K: Sink>(
    alloc: Global,
    command: Command,
    input: &mut S,
    out: &mut K,
) -> Done
    requires within { CommandIsWithin command }
    ensures answered { Answered (task_of command)
        (stream_of (S.left input.old) (S.faults input.old)) (stream_of (S.left input.new) (S.faults input.new))
        (stream_of (K.held out.old) (K.faults out.old)) (stream_of (K.held out.new) (K.faults out.new))
        result.cause result.journal result.merged }
    ensures input_count { S.faults input.old ≤ S.faults input.new }
    ensures out_count { K.faults out.old ≤ K.faults out.new }
{
    let bytes = match bytes_for(alloc, reads(&command), input) {
        Ok(bytes) => bytes,
        Err(cause) => return Done::without(alloc, cause),
    };
    write_made(alloc, make(alloc, command, bytes.bytes()), out)
}

// A command reads its input.
fn reads(command: &Command) -> bool
    ensures { result ≡ (task_of command.now).reads }
{
    match command {
        Command::Gen { .. } => false,
        _ => true,
    }
}

// What a command makes of its bytes.
fn make(alloc: Global, command: Command, bytes: &[u8]) -> Result<Output, Refusal>
    requires within { CommandIsWithin command }
    requires few { length bytes.now ≤ MOST_INPUT }
    ensures { Gives ((task_of command).Makes bytes.now) ((task_of command).Refuses bytes.now) result }
{
    match command {
        Command::Asm { write } => assemble_source(alloc, write, bytes),
        Command::Run {
            seed,
            params,
            write,
        } => run_bytes(alloc, seed, &params, write, bytes),
        Command::RunByTime {
            costs,
            params,
            write,
        } => run_by_time(alloc, &costs, &params, write, bytes),
        Command::Replay { write } => replay_bytes(alloc, write, bytes),
        Command::Audit { write } => audit_bytes(alloc, write, bytes),
        Command::Gen {
            seed,
            width,
            height,
            size,
        } => make_workload(alloc, seed, width, height, size),
        Command::Route { seed } => route_bytes(alloc, seed, bytes),
        Command::Save { at } => save_bytes(alloc, at, bytes),
        Command::Resume { seed, evict, write } => resume(alloc, seed, evict, write, bytes),
        Command::Outcomes { most } => search_bytes(alloc, most, bytes),
        Command::Dis => read_back(alloc, bytes),
        Command::Schedule { params } => schedule_bytes(alloc, &params, bytes),
        Command::Time { costs, write } => time_bytes(alloc, &costs, write, bytes),
    }
}
