ghost use Rattle.std.specs.Prelude.{◌≡◌, ◌++◌, ◌<◌, ◌≤◌, ◌+◌, ◌-◌, ◌^◌, IfOk, OnOk, length};
ghost use Rattle.alw_num.specs.NodeSets.{nodes_of, join_nodes};
ghost use Rattle.alw_model.specs.LimitLess.{Directory};
ghost use Rattle.alw_model.specs.Counts.{memory_words, directory_lines, directory_line, is_listed};
ghost use Rattle.alw_memory.specs.Views.{IsViewOf};
ghost use Rattle.alw_mesh.specs.Histories.{state_of};
ghost use Rattle.alw_report.specs.Reports.{told_of};
ghost use Rattle.alw_told.specs.Heads.{head_of};

use alw_memory::HomeView;
use alw_mesh::Machine;
use alw_model::Ended;
use alw_msg::{Prints, Stretches, Words, stretches};
use alw_num::{LineNo, NoMemory, State};
use alw_report::{DirectoryLine, DirectoryLines, Report, put_line};
use std::alloc::Global;

/// What a report tells of a machine at an end: its turns in stretches, what was printed and counted, and
/// memory and directory as they are. It costs a look at each line.
pub fn tell(alloc: Global, machine: &Machine, ended: Ended) -> Result<Report, NoMemory>
    ensures { IfOk result (λ told. told ≡ told_of machine.now.image machine.now.parameters machine.now.journal ended) }
{
    let mut report = tell_head(alloc, machine, ended);
    report.runs = stretches(alloc, machine.turns())?;
    report.prints = Prints::from_slice(alloc, machine.prints())?;
    report.memory = memory_of(alloc, machine)?;
    report.directory = directory_of(alloc, machine)?;
    Ok(report)
}

/// What a report's first lines tell of it, which are a summary's: the lists are left empty.
pub fn tell_head(alloc: Global, machine: &Machine, ended: Ended) -> Report
    ensures { result ≡ head_of (told_of machine.now.image machine.now.parameters machine.now.journal ended) }
{
    let image = machine.image();
    Report {
        sizes: image.sizes(),
        params: *machine.params(),
        ended,
        counts: machine.counts(),
        runs: Stretches::empty(alloc),
        prints: Prints::empty(alloc),
        memory: Words::empty(alloc),
        directory: DirectoryLines::empty(alloc),
    }
}

/// The words of shared data whose current value isn't 0, each with its address, ascending.
pub fn memory_of(alloc: Global, machine: &Machine) -> Result<Words, NoMemory>
    ensures { IfOk result (λ words. words ≡ memory_words machine.now.image machine.now.parameters (state_of machine.now)) }
{
    let mut words = Words::empty(alloc);
    for line in 0..machine.lines() {
        let line = LineNo(line);
        put_line(&mut words, line, &machine.value(line))?;
    }
    Ok(words)
}

// The entries of the directory that are to be listed, by line.
fn directory_of(alloc: Global, machine: &Machine) -> Result<DirectoryLines, NoMemory>
    ensures { IfOk result (λ lines. lines ≡ directory_lines machine.now.image (state_of machine.now)) }
{
    let mut lines = DirectoryLines::empty(alloc);
    for line in 0..machine.lines() {
        let line = LineNo(line);
        put_entry(&mut lines, line, &machine.home(line))?;
    }
    Ok(lines)
}

// A line's entry, where it isn't Read-Only or has a pointer.
fn put_entry(lines: &mut DirectoryLines, line: LineNo, home: &HomeView) -> Result<(), NoMemory>
    requires room { length lines.old < 2 ^ 32 - 1 }
    ensures lines { OnOk result ((entry : Directory) → IsViewOf home.now entry → lines.new ≡ lines.old ++ directory_line line.0 entry) }
    ensures few { OnOk result (length lines.new ≤ length lines.old + 1) }
{
    if is_listed(home) {
        lines.push(DirectoryLine {
            line,
            state: home.state,
            meta: home.meta,
            hardware: home.hw,
            software: home.sw,
            acks: home.acks,
        })?;
    }
    Ok(())
}

// An entry is listed: it isn't Read-Only, or has a pointer.
fn is_listed(home: &HomeView) -> bool
    ensures { result ≡ is_listed home.now.state (join_nodes (nodes_of home.now.hw) (nodes_of home.now.sw)) }
{
    match home.state {
        State::RO => home.hw.union(home.sw).count() != 0,
        _ => true,
    }
}
