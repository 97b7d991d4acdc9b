ghost use Rattle.std.specs.Prelude.{◌≡◌, ◌<◌, ◌≤◌, ◌+◌, ◌++◌, ◌∷◌, [], ◌^◌, ℕ, false, max, length, map, slice_get, slice_index_or, Some, IfOk, OnOk, IsTrue};
ghost use Rattle.std.specs.List.{AllByRecursion, Contains};
ghost use Rattle.alw_image.specs.Images.{line_count, context_count};
ghost use Rattle.alw_msg.specs.Stretches.{stretches};
ghost use Rattle.alw_outcomes.specs.Explored.{found_in, place_in, trap_of, IsStored, IsReal, IsClosed, LeadsTo};
ghost use Rattle.alw_outcomes.specs.declared.explored.Trapped.{Trapped};
ghost use Rattle.alw_outcomes.specs.Endings.{halt_at};
ghost use Rattle.alw_endings.specs.Ends.{prints_at, memory_at, halt_told, trap_told, IsHaltEnd, IsTrapEnd, IsStuckRun, AreOutcomes};

use crate::values::{HaltEnd, HaltEnds, Outcomes, StuckRun, TrapEnd, TrapEnds};
use alw_image::Image;
use alw_msg::{Prints, Stretches, Words, stretches};
use alw_num::{LineNo, NoMemory};
use alw_outcomes::{
    Explored, Stuck, Trapped, endings_of, explore, memory_at, stuck_of, turns_to, words_at,
};
use alw_report::put_line;
use std::alloc::Global;

/// What an image can come to, by a search that takes turns from so many places at most, and stops only where
/// it keeps so many. Each end has turns that lead there, and is told once.
pub fn outcomes_of(alloc: Global, image: &Image, most: u32) -> Result<Outcomes, NoMemory>
    ensures are { IfOk result (λ told. AreOutcomes image.now told) }
    ensures stopped { IfOk result (λ told. told.is_complete ≡ false → most ≤ told.places) }
    ensures few { IfOk result (λ told. told.places ≤ max most 1) }
{
    let mut found = explore(alloc, image, most)?;
    let places = found.memories.len() as u64;
    let is_complete = found.is_complete;
    let stuck = stuck_run(alloc, image, &mut found)?;
    let endings = endings_of(alloc, image, &found)?;
    let halts = halts_of(alloc, image, &found, &endings.ends)?;
    let traps = traps_of(alloc, image, &found, &endings.traps)?;
    Ok(Outcomes {
        sizes: image.sizes(),
        places,
        is_complete,
        halts,
        traps,
        stuck,
    })
}

// Whether a place is stuck, with the turns that lead there.
fn stuck_run(alloc: Global, image: &Image, found: &mut Explored) -> Result<StuckRun, NoMemory>
    requires stored { IsStored image.now found.old }
    requires real { IsReal image.now (found_in found.old) }
    requires closed { IsTrue found.old.is_complete → IsClosed image.now found.old.classes.items (found_in found.old) }
    ensures stored { OnOk result (IsStored image.now found.new) }
    ensures same { OnOk result (found_in found.new ≡ found_in found.old) }
    ensures stuck { IfOk result (IsStuckRun image.now) }
{
    match stuck_of(alloc, image, found)? {
        Stuck::No => Ok(StuckRun::No),
        Stuck::At(at) => {
            let turns = turns_to(alloc, image, found, at)?;
            let runs = runs_of(alloc, &turns)?;
            Ok(StuckRun::Yes(runs))
        }
        Stuck::Unknown => Ok(StuckRun::Unknown),
    }
}

// The ends at which all contexts have halted, of the places with these numbers.
fn halts_of(
    alloc: Global,
    image: &Image,
    found: &Explored,
    ends: &[u32],
) -> Result<HaltEnds, NoMemory>
    requires stored { IsStored image.now found.now }
    requires real { IsReal image.now (found_in found.now) }
    requires ends { (at : ℕ) → Contains ends.now at → Contains found.now.halted.items at }
    ensures each { IfOk result (AllByRecursion (IsHaltEnd image.now)) }
    ensures told { IfOk result (λ halts. map (halt_told image.now) halts ≡ map (halt_at (found_in found.now)) ends.now) }
{
    if ends.len() >= MOST_MEMBERS {
        return Err(NoMemory);
    }
    let mut halts = HaltEnds::empty(alloc);
    for at in ends {
        let halt = halt_of(alloc, image, found, *at)?;
        halts.push(halt)?;
    }
    Ok(halts)
}

// The end at a place where all contexts have halted.
fn halt_of(alloc: Global, image: &Image, found: &Explored, at: u32) -> Result<HaltEnd, NoMemory>
    requires stored { IsStored image.now found.now }
    requires real { IsReal image.now (found_in found.now) }
    requires listed { Contains found.now.halted.items at }
    ensures is { IfOk result (IsHaltEnd image.now) }
    ensures told { IfOk result (λ halt. halt_told image.now halt ≡ halt_at (found_in found.now) at) }
{
    let turns = turns_to(alloc, image, found, at)?;
    let runs = runs_of(alloc, &turns)?;
    let prints = prints_of(alloc, image, found, at)?;
    let memory = words_of(alloc, image, found, at)?;
    Ok(HaltEnd {
        prints,
        memory,
        runs,
    })
}

// The ends at which these turns trap.
fn traps_of(
    alloc: Global,
    image: &Image,
    found: &Explored,
    turns: &[Trapped],
) -> Result<TrapEnds, NoMemory>
    requires real { IsReal image.now (found_in found.now) }
    requires turns { (turn : Trapped) → Contains turns.now turn → Contains found.now.trapped.items turn }
    ensures each { IfOk result (AllByRecursion (IsTrapEnd image.now)) }
    ensures told { IfOk result (λ traps. map trap_told traps ≡ map trap_of turns.now) }
{
    if turns.len() >= MOST_MEMBERS {
        return Err(NoMemory);
    }
    let mut traps = TrapEnds::empty(alloc);
    for turn in turns {
        let trap = trap_of(alloc, image, found, *turn)?;
        traps.push(trap)?;
    }
    Ok(traps)
}

// The end at which a turn traps: that turn is the last one of those that lead there.
fn trap_of(
    alloc: Global,
    image: &Image,
    found: &Explored,
    turn: Trapped,
) -> Result<TrapEnd, NoMemory>
    requires real { IsReal image.now (found_in found.now) }
    requires listed { Contains found.now.trapped.items turn }
    ensures is { IfOk result (IsTrapEnd image.now) }
    ensures told { IfOk result (λ trap. trap_told trap ≡ trap_of turn) }
{
    let mut turns = turns_to(alloc, image, found, turn.at)?;
    turns.push(turn.context)?;
    let runs = runs_of(alloc, &turns)?;
    Ok(TrapEnd {
        context: turn.context,
        pc: turn.pc,
        tt: turn.tt,
        runs,
    })
}

// The stretches of turns.
fn runs_of(alloc: Global, turns: &[u32]) -> Result<Stretches, NoMemory>
    ensures { IfOk result (λ runs. runs ≡ stretches turns.now) }
{
    if turns.len() >= MOST_MEMBERS {
        return Err(NoMemory);
    }
    let runs = stretches(alloc, turns)?;
    Ok(runs)
}

// The words that each context has printed at a place, by context.
fn prints_of(alloc: Global, image: &Image, found: &Explored, at: u32) -> Result<Prints, NoMemory>
    requires at { at < length found.now.memories.items }
    requires stored { IsStored image.now found.now }
    ensures { IfOk result (λ prints. prints ≡ prints_at image.now (place_in found.now at)) }
{
    let mut prints = Prints::empty(alloc);
    for context in 0..image.all_contexts() {
        let words = words_at(alloc, image, found, at, context)?;
        put_words(&mut prints, context, &words)?;
    }
    Ok(prints)
}

// Puts the words of a context at the end of prints.
fn put_words(prints: &mut Prints, context: u32, words: &[u32]) -> Result<(), NoMemory>
    ensures { OnOk result (prints.new ≡ prints.old ++ map (λ word. (context, word)) words.now) }
{
    for word in words {
        if prints.len() == u32::MAX {
            return Err(NoMemory);
        }
        prints.push((context, *word))?;
    }
    Ok(())
}

// The words of memory at a place that aren't 0, by address.
fn words_of(alloc: Global, image: &Image, found: &Explored, at: u32) -> Result<Words, NoMemory>
    requires at { at < length found.now.memories.items }
    requires stored { IsStored image.now found.now }
    ensures { IfOk result (λ words. words ≡ memory_at image.now (place_in found.now at)) }
{
    let memory = memory_at(image, found, at);
    let mut words = Words::empty(alloc);
    for line in 0..image.lines() {
        let line = LineNo(line);
        put_line(&mut words, line, &memory.value(line))?;
    }
    Ok(words)
}

// The most members of a list.
const MOST_MEMBERS: usize = u32::MAX as usize;
