ghost use Rattle.std.specs.Prelude.{◌≡◌, ◌<◌, ◌+◌, ◌*◌, ◌++◌, ◌∷◌, [], suc, ℕ, List, map, length, IfOk, OnOk};
ghost use Rattle.std.specs.List.{Contains, range_with_len};
ghost use Rattle.alw_outcomes.specs.Explored.{found_in, place_in, endings_in, IsStored, IsReal};
ghost use Rattle.alw_outcomes.specs.Endings.{kept_word, line_words, memory_words, told_in, AreDifferent};
ghost use Rattle.alw_outcomes.specs.Keys.{words_key, place_key, end_key, turn_key, trap_key, numbers_of, AreKeyed, IsRising, IsNew, SortIsUnderWay, AreOneOfEach};

use crate::explored::{Explored, Trapped};
use crate::places::{memory_at, words_at};
use alw_flat::Memory;
use alw_image::Image;
use alw_num::{LINE_BYTES, Line, LineNo, NoMemory, SHARED_BASE};
use alw_places::contexts_of;
use sparc_exec::Port;
use std::alloc::Global;

/// The different endings of a search, ascending: the numbers of places where all contexts have halted, one for
/// each different prints and memory, and the turns that trap, one for each different context, PC and type.
#[derive(Drop)]
pub struct Endings {
    pub ends: Vec<u32>,
    pub traps: Vec<Trapped>,
}

// A number, with the list that it is sorted by.
#[derive(Drop, PartialEq, Eq, PartialOrd, Ord)]
struct Keyed {
    key: Vec<u64>,
    number: u32,
}

/// The different endings of a search: ends by prints, context by context, and then by memory, as the list of its words
/// that aren't 0, each with its address; traps by context, PC and type.
pub fn endings_of(alloc: Global, image: &Image, found: &Explored) -> Result<Endings, NoMemory>
    requires stored { IsStored image.now found.now }
    requires real { IsReal image.now (found_in found.now) }
    ensures ends { IfOk result (λ endings. (at : ℕ) → Contains endings.ends.items at → Contains found.now.halted.items at) }
    ensures traps { IfOk result (λ endings. (turn : Trapped) → Contains endings.traps.items turn → Contains found.now.trapped.items turn) }
    ensures different { IfOk result (λ endings. AreDifferent (endings_in (found_in found.now)) (told_in (found_in found.now) endings)) }
{
    let _parts = image.parts(); // for its clause
    let ends = one_of_each(alloc, keyed_ends(alloc, image, found)?)?;
    let turns = one_of_each(alloc, keyed_traps(alloc, &found.trapped)?)?;
    let mut traps = Vec::new(alloc);
    for turn in &turns {
        traps.push(found.trapped[*turn as usize])?;
    }
    Ok(Endings { ends, traps })
}

// The places where all contexts have halted, by prints and memory.
fn keyed_ends(alloc: Global, image: &Image, found: &Explored) -> Result<Vec<Keyed>, NoMemory>
    requires stored { IsStored image.now found.now }
    requires real { IsReal image.now (found_in found.now) }
    ensures numbers { IfOk result (λ keyed. numbers_of keyed.items ≡ found.now.halted.items) }
    ensures keys { IfOk result (λ keyed. AreKeyed (end_key (found_in found.now)) keyed.items) }
{
    let _parts = image.parts(); // for its clause
    let mut keyed = Vec::new(alloc);
    for at in &found.halted {
        let key = key_of(alloc, image, found, *at)?;
        keyed.push(Keyed { key, number: *at })?;
    }
    Ok(keyed)
}

// The turns that trap, by context, PC and type. Each number is a place in their list.
fn keyed_traps(alloc: Global, trapped: &[Trapped]) -> Result<Vec<Keyed>, NoMemory>
    ensures numbers { IfOk result (λ keyed. numbers_of keyed.items ≡ range_with_len 0 (length trapped.now)) }
    ensures keys { IfOk result (λ keyed. AreKeyed (trap_key trapped.now) keyed.items) }
{
    let mut keyed = Vec::new(alloc);
    for (i, turn) in trapped.iter().enumerate() {
        if i >= 4_294_967_295 {
            return Err(NoMemory);
        }
        let key = key_of_turn(alloc, turn)?;
        keyed.push(Keyed {
            key,
            number: i as u32,
        })?;
    }
    Ok(keyed)
}

// The context, PC and type of a turn that traps.
fn key_of_turn(alloc: Global, turn: &Trapped) -> Result<Vec<u64>, NoMemory>
    ensures { IfOk result (λ key. key.items ≡ turn_key turn.now) }
{
    let (context, pc, tt) = (turn.context, turn.pc, turn.tt);
    let key = [u64::from(context), u64::from(pc), u64::from(tt)].to_vec(alloc)?;
    Ok(key)
}

// One number of each different key, in the keys' order.
fn one_of_each(alloc: Global, mut keyed: Vec<Keyed>) -> Result<Vec<u32>, NoMemory>
    ensures { IfOk result (λ kept. (key : ℕ → List ℕ) → AreKeyed key keyed.items → AreOneOfEach key (numbers_of keyed.items) kept.items) }
{
    keyed.sort_unstable();
    let mut kept = Vec::new(alloc);
    for i in 0..keyed.len() {
        keep_new(&keyed, i, &mut kept)?;
    }
    Ok(kept)
}

// Keeps a number where its key differs from the one before it.
fn keep_new(keyed: &[Keyed], i: usize, kept: &mut Vec<u32>) -> Result<(), NoMemory>
    requires { i < length keyed.now }
    ensures { OnOk result ((key : ℕ → List ℕ) → AreKeyed key keyed.now → IsRising keyed.now → SortIsUnderWay key keyed.now i kept.old.items → SortIsUnderWay key keyed.now (i + 1) kept.new.items) }
{
    if is_new(keyed, i) {
        kept.push(keyed[i].number)?;
        return Ok(());
    }
    Ok(())
}

// The key differs from the one before it.
fn is_new(keyed: &[Keyed], i: usize) -> bool
    requires { i < length keyed.now }
    ensures { IsNew keyed.now i result }
{
    if i == 0 {
        return true;
    }
    keyed[i - 1].key != keyed[i].key
}

// The prints and the memory at a place, as one list of numbers.
fn key_of(alloc: Global, image: &Image, found: &Explored, at: u32) -> Result<Vec<u64>, NoMemory>
    requires at { at < length found.now.memories.items }
    requires stored { IsStored image.now found.now }
    ensures { IfOk result (λ key. key.items ≡ place_key (place_in found.now at)) }
{
    let mut key = Vec::new(alloc);
    for context in 0..contexts_of(image) {
        let words = words_at(alloc, image, found, at, context)?;
        push_words(&mut key, &words)?;
    }
    push_memory(&mut key, memory_at(image, found, at))?;
    Ok(key)
}

// Puts words behind a key: each plus one, and then 0.
fn push_words(key: &mut Vec<u64>, words: &[u32]) -> Result<(), NoMemory>
    ensures { OnOk result (key.new.items ≡ key.old.items ++ (map suc words.now ++ 0 ∷ [])) }
{
    for word in words {
        key.push(u64::from(*word) + 1)?;
    }
    key.push(0)?;
    Ok(())
}

// Puts the words of a memory that aren't 0 behind a key, each with its address.
fn push_memory(key: &mut Vec<u64>, memory: &Memory) -> Result<(), NoMemory>
    ensures { OnOk result (key.new.items ≡ key.old.items ++ words_key (memory_words memory.now)) }
{
    for line in 0..memory.lines() {
        push_line(key, line, memory.value(LineNo(line)))?;
    }
    Ok(())
}

// Puts the words of a line that aren't 0 behind a key, each with its address.
fn push_line(key: &mut Vec<u64>, line: u32, body: Line) -> Result<(), NoMemory>
    ensures { OnOk result (key.new.items ≡ key.old.items ++ words_key (line_words (SHARED_BASE + 16 * line) body)) }
{
    let address = u64::from(SHARED_BASE) + u64::from(LINE_BYTES) * u64::from(line);
    push_word(key, address, body.a)?;
    push_word(key, address + 4, body.b)?;
    push_word(key, address + 8, body.c)?;
    push_word(key, address + 12, body.d)?;
    Ok(())
}

// Puts a word behind a key, with its address, where it isn't 0.
fn push_word(key: &mut Vec<u64>, address: u64, word: u32) -> Result<(), NoMemory>
    ensures { OnOk result (key.new.items ≡ key.old.items ++ words_key (kept_word address word)) }
{
    if word != 0 {
        key.push(address)?;
        key.push(u64::from(word))?;
    }
    Ok(())
}
