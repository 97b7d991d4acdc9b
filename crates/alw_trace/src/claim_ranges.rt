ghost use Rattle.std.specs.Prelude.{◌≡◌, ◌≤◌, ◌<◌, ◌+◌, ◌^◌, ◌++◌, length, replicate, None, Some, IsTrue, OnOk, IfOk, IfErr};
ghost use Rattle.std.specs.List.{AllByRecursion};
ghost use Rattle.alw_image.specs.Faults.{first_unfit, is_above};
ghost use Rattle.alw_trace.specs.Lines.{IsMemoryWord, IsPrint};
ghost use Rattle.alw_trace.specs.Readings.{fits_run, fits_word, is_shared, memory_tests, most_turns, prints_tests, runs_tests};
ghost use Rattle.alw_trace.specs.Raw.{IsRangeFault};
ghost use Rattle.alw_trace.specs.Lists.{ArePrints, AreTurns, LinesAreWords};

use crate::faults::TextErr;
use alw_msg::{Prints, Turns, Words};
use alw_num::{LINE_BYTES, MOST_LINES, NoMemory, SHARED_BASE};
use std::alloc::Global;

// The most turns of a claim.
const MOST_TURNS: u64 = 8_388_608;

// The most members of a list.
const MOST_MEMBERS: usize = u32::MAX as usize;

// The turns of runs behind a heading, which is the line of this number.
pub fn turns_of(
    alloc: Global,
    runs: &[(u64, u64)],
    contexts: u32,
    at: u64,
) -> Result<Turns, TextErr>
    requires { at ≤ 2 ^ 61 }
    ensures ok { IfOk result (λ turns. AreTurns contexts at runs.now turns) }
    ensures err { IfErr result (IsRangeFault (λ line. first_unfit (runs_tests contexts at runs.now) ≡ Some line)) }
{
    if runs.len() > MOST_MEMBERS {
        return Err(TextErr::Range { line: at });
    }
    let mut turns = Turns::empty(alloc);
    let mut before = None;
    let mut line = at;
    for run in runs {
        line += 1;
        if !fits_run(contexts, turns.len(), before, *run) {
            return Err(TextErr::Range { line });
        }
        let (context, count) = *run;
        put_run(&mut turns, context as u32, count as u32)?;
        before = Some(context);
    }
    Ok(turns)
}

// A run of a context that there is, and not of the one before; it has a turn, and with those before
// it not too many.
fn fits_run(contexts: u32, turns: u32, before: Option<u64>, run: (u64, u64)) -> bool
    ensures fits { result ≡ fits_run contexts turns before run }
    ensures context { IsTrue result → run.0 < contexts }
    ensures room { IsTrue result → turns + run.1 ≤ most_turns }
{
    let (context, count) = run;
    context < u64::from(contexts)
        && before != Some(context)
        && count >= 1
        && count <= MOST_TURNS
        && u64::from(turns) + count <= MOST_TURNS
}

// So many turns of a context.
fn put_run(turns: &mut Turns, context: u32, count: u32) -> Result<(), NoMemory>
    requires { length turns.old + count ≤ most_turns }
    ensures { OnOk result (turns.new ≡ turns.old ++ replicate count context) }
{
    for _turn in 0..count {
        turns.push(context)?;
    }
    Ok(())
}

// The prints of lines behind a heading, which is the line of this number.
pub fn prints_of(
    alloc: Global,
    lines: &[(u64, u64)],
    contexts: u32,
    at: u64,
) -> Result<Prints, TextErr>
    requires at { at ≤ 2 ^ 61 }
    requires words { AllByRecursion IsPrint lines.now }
    ensures ok { IfOk result (λ prints. ArePrints contexts at lines.now prints) }
    ensures err { IfErr result (IsRangeFault (λ line. first_unfit (prints_tests contexts at lines.now) ≡ Some line)) }
{
    if lines.len() > MOST_MEMBERS {
        return Err(TextErr::Range { line: at });
    }
    let mut prints = Prints::empty(alloc);
    let mut line = at;
    for (context, word) in lines {
        line += 1;
        if *context >= u64::from(contexts) {
            return Err(TextErr::Range { line });
        }
        prints.push((*context as u32, *word as u32))?;
    }
    Ok(prints)
}

// The words of lines behind a heading, which is the line of this number.
pub fn words_of(alloc: Global, lines: &[(u64, u64)], shared: u32, at: u64) -> Result<Words, TextErr>
    requires at { at ≤ 2 ^ 61 }
    requires shared { shared ≤ MOST_LINES }
    requires words { AllByRecursion IsMemoryWord lines.now }
    ensures ok { IfOk result (λ words. LinesAreWords shared at lines.now words) }
    ensures err { IfErr result (IsRangeFault (λ line. first_unfit (memory_tests shared at lines.now) ≡ Some line)) }
{
    if lines.len() > MOST_MEMBERS {
        return Err(TextErr::Range { line: at });
    }
    let mut words = Words::empty(alloc);
    let mut before = None;
    let mut line = at;
    for word in lines {
        line += 1;
        if !fits_word(shared, before, *word) {
            return Err(TextErr::Range { line });
        }
        let (address, value) = *word;
        words.push((address as u32, value as u32))?;
        before = Some(address);
    }
    Ok(words)
}

// A word of shared data of so many lines that isn't 0, above the one before.
fn fits_word(shared: u32, before: Option<u64>, word: (u64, u64)) -> bool
    requires { shared ≤ MOST_LINES }
    ensures { result ≡ fits_word shared before word }
{
    let (address, value) = word;
    is_above(before, address) && is_shared(shared, address) && value != 0
}

fn is_above(before: Option<u64>, address: u64) -> bool
    ensures { result ≡ is_above before address }
{
    match before {
        None => true,
        Some(before) => before < address,
    }
}

// The address is one of a word of so many lines of shared data.
fn is_shared(shared: u32, address: u64) -> bool
    requires { shared ≤ MOST_LINES }
    ensures { result ≡ is_shared shared address }
{
    let base = u64::from(SHARED_BASE);
    address % 4 == 0
        && base <= address
        && address < base + u64::from(LINE_BYTES) * u64::from(shared)
}
