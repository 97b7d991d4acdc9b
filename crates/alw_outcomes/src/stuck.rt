ghost use Rattle.std.specs.Prelude.{◌≡◌, ◌<◌, ℕ, true, false, length, slice_get, Some, IfOk, IfSome, IfNone, OnOk, IsTrue, ◌^◌};
ghost use Rattle.alw_image.specs.Images.{context_count};
ghost use Rattle.alw_outcomes.specs.Explored.{found_in, IsStored, IsReal, IsClosed};
ghost use Rattle.alw_outcomes.specs.Stuck.{TellsStuck};
ghost use Rattle.alw_outcomes.specs.Marks.{AreMarks, KeepsFound, AreStaying, IsStayingAt, LooksAt, LooksAlongAt, look_of, ends, tells, is_open, stays_inside};

use crate::explored::{Explored, has_halted, lead_at, number_of};
use crate::leads::Lead;
use alw_image::Image;
use alw_num::NoMemory;
use alw_places::contexts_of;
use std::alloc::Global;

/// Whether a place can be reached from which no end can be: none can; or the number of such a place; or
/// the search doesn't tell.
#[derive(Clone, Copy, PartialEq, Eq)]
pub enum Stuck {
    No,
    At(u32),
    Unknown,
}

// What a look at a place, or along a turn from there, finds: an end behind it; a private turn to a place
// that isn't marked; nothing but such places; or none of these.
#[derive(Clone, Copy, PartialEq, Eq)]
enum Look {
    Ends,
    Alone,
    Stays,
    Open,
}

/// Whether a place can be reached from which no end can be. It marks the places from which an end can be
/// reached, from the ends backwards.
pub fn stuck_of(alloc: Global, image: &Image, found: &mut Explored) -> Result<Stuck, NoMemory>
    requires stored { IsStored image.now found.old }
    requires real { IsReal image.now (found_in found.old) }
    requires closed { IsTrue found.old.is_complete → IsClosed image.now found.old.classes.items (found_in found.old) }
    ensures stored { OnOk result (IsStored image.now found.new) }
    ensures same { OnOk result (found_in found.new ≡ found_in found.old) }
    ensures stuck { IfOk result (λ stuck. TellsStuck image.now (found_in found.old) stuck) }
{
    let count = found.memories.len();
    if !found.is_complete || count >= 4_294_967_295 {
        return Ok(Stuck::Unknown);
    }
    let mut marks = vec![in alloc; false; count]?;
    for _pass in 0..=count {
        if !mark_more(image, found, &mut marks)? {
            let told = told_by(image, found, &marks)?;
            return Ok(told);
        }
    }
    Ok(Stuck::Unknown)
}

// What marks tell once no pass marks more.
fn told_by(image: &Image, found: &mut Explored, marks: &[bool]) -> Result<Stuck, NoMemory>
    requires stored { IsStored image.now found.old }
    requires real { IsReal image.now (found_in found.old) }
    requires closed { IsClosed image.now found.old.classes.items (found_in found.old) }
    requires marks { AreMarks image.now (found_in found.old) marks.now }
    requires length { length marks.now ≡ length found.old.memories.items }
    requires small { length marks.now < 2 ^ 32 }
    ensures stored { OnOk result (IsStored image.now found.new) }
    ensures same { OnOk result (found_in found.new ≡ found_in found.old) }
    ensures stuck { IfOk result (λ stuck. TellsStuck image.now (found_in found.old) stuck) }
{
    match first_unmarked(marks) {
        Some(at) => {
            if have_exit(image, found, marks)? {
                return Ok(Stuck::Unknown);
            }
            Ok(Stuck::At(at))
        }
        None => Ok(Stuck::No),
    }
}

// Marks places that are ends, or from which a turn leads to a marked place, from the last to the first.
// It says whether it marked any.
fn mark_more(image: &Image, found: &mut Explored, marks: &mut Vec<bool>) -> Result<bool, NoMemory>
    requires stored { IsStored image.now found.old }
    requires real { IsReal image.now (found_in found.old) }
    requires marks { AreMarks image.now (found_in found.old) marks.old.items }
    requires length { length marks.old.items ≡ length found.old.memories.items }
    requires small { length marks.old.items < 2 ^ 32 }
    ensures stays { OnOk result (KeepsFound image.now found.old found.new) }
    ensures marks { OnOk result (AreMarks image.now (found_in found.old) marks.new.items) }
    ensures length { OnOk result (length marks.new.items ≡ length marks.old.items) }
{
    let count = marks.len() as u32;
    let mut has_marked = false;
    for back in 0..count {
        has_marked |= mark_at(image, found, marks, count - 1 - back)?;
    }
    Ok(has_marked)
}

// Marks a place if it is an end, or a turn leads from there to a marked place. It says whether it did.
fn mark_at(
    image: &Image,
    found: &mut Explored,
    marks: &mut Vec<bool>,
    at: u32,
) -> Result<bool, NoMemory>
    requires at { at < length found.old.memories.items }
    requires stored { IsStored image.now found.old }
    requires real { IsReal image.now (found_in found.old) }
    requires marks { AreMarks image.now (found_in found.old) marks.old.items }
    requires length { length marks.old.items ≡ length found.old.memories.items }
    ensures stays { OnOk result (KeepsFound image.now found.old found.new) }
    ensures marks { OnOk result (AreMarks image.now (found_in found.old) marks.new.items) }
    ensures length { OnOk result (length marks.new.items ≡ length marks.old.items) }
{
    if marks[at as usize] {
        return Ok(false);
    }
    let look = look_at(image, found, marks, at)?;
    if !is_end(look) {
        return Ok(false);
    }
    marks[at as usize] = true;
    Ok(true)
}

// An end is behind it.
fn is_end(look: Look) -> bool
    ensures { result ≡ ends look }
{
    matches!(look, Look::Ends)
}

// The number of the first place that isn't marked.
fn first_unmarked(marks: &[bool]) -> Option<u32>
    requires small { length marks.now < 2 ^ 32 }
    ensures some { IfSome result (λ at. slice_get marks.now at ≡ Some false) }
    ensures none { IfNone result ((k : ℕ) → k < length marks.now → slice_get marks.now k ≡ Some true) }
{
    for (at, mark) in marks.iter().enumerate() {
        if !*mark {
            return Some(at as u32);
        }
    }
    None
}

// From a place that isn't marked an end may be reached after all.
fn have_exit(image: &Image, found: &mut Explored, marks: &[bool]) -> Result<bool, NoMemory>
    requires stored { IsStored image.now found.old }
    requires real { IsReal image.now (found_in found.old) }
    requires marks { AreMarks image.now (found_in found.old) marks.now }
    requires length { length marks.now ≡ length found.old.memories.items }
    requires small { length marks.now < 2 ^ 32 }
    ensures stays { OnOk result (KeepsFound image.now found.old found.new) }
    ensures closed { IfOk result (λ exit. exit ≡ false → AreStaying image.now found.old.classes.items (found_in found.old) marks.now (length marks.now)) }
{
    let count = marks.len() as u32;
    for at in 0..count {
        if !stays_at(image, found, marks, at)? {
            return Ok(true);
        }
    }
    Ok(false)
}

// The place is marked, or leads to places alone that aren't.
fn stays_at(image: &Image, found: &mut Explored, marks: &[bool], at: u32) -> Result<bool, NoMemory>
    requires at { at < length found.old.memories.items }
    requires stored { IsStored image.now found.old }
    requires real { IsReal image.now (found_in found.old) }
    requires marks { AreMarks image.now (found_in found.old) marks.now }
    requires length { length marks.now ≡ length found.old.memories.items }
    ensures keeps { OnOk result (KeepsFound image.now found.old found.new) }
    ensures stays { IfOk result (λ stays. stays ≡ true → IsStayingAt image.now found.old.classes.items (found_in found.old) marks.now at) }
{
    if marks[at as usize] {
        return Ok(true);
    }
    let look = look_at(image, found, marks, at)?;
    Ok(is_inside(look))
}

// Nothing but places that aren't marked is behind it.
fn is_inside(look: Look) -> bool
    ensures { result ≡ stays_inside look }
{
    matches!(look, Look::Alone) || matches!(look, Look::Stays)
}

// What a look at a place finds.
fn look_at(image: &Image, found: &mut Explored, marks: &[bool], at: u32) -> Result<Look, NoMemory>
    requires at { at < length found.old.memories.items }
    requires stored { IsStored image.now found.old }
    requires real { IsReal image.now (found_in found.old) }
    requires marks { AreMarks image.now (found_in found.old) marks.now }
    requires length { length marks.now ≡ length found.old.memories.items }
    ensures stays { OnOk result (KeepsFound image.now found.old found.new) }
    ensures look { IfOk result (λ look. LooksAt image.now found.old.classes.items (found_in found.old) marks.now at look) }
{
    if has_halted(image, found, at) {
        return Ok(Look::Ends);
    }
    let mut is_open = false;
    for context in 0..contexts_of(image) {
        let look = look_along(image, found, marks, at, context)?;
        if is_told(look) {
            return Ok(look);
        }
        is_open |= is_unknown(look);
    }
    if is_open {
        return Ok(Look::Open);
    }
    Ok(Look::Stays)
}

// A look along one turn tells of its place.
fn is_told(look: Look) -> bool
    ensures { result ≡ tells look }
{
    matches!(look, Look::Ends) || matches!(look, Look::Alone)
}

// What is behind it isn't known.
fn is_unknown(look: Look) -> bool
    ensures { result ≡ is_open look }
{
    matches!(look, Look::Open)
}

// What a look along the turn of a context finds.
fn look_along(
    image: &Image,
    found: &mut Explored,
    marks: &[bool],
    at: u32,
    context: u32,
) -> Result<Look, NoMemory>
    requires context { context < context_count image.now }
    requires at { at < length found.old.memories.items }
    requires stored { IsStored image.now found.old }
    requires real { IsReal image.now (found_in found.old) }
    requires marks { AreMarks image.now (found_in found.old) marks.now }
    requires length { length marks.now ≡ length found.old.memories.items }
    ensures stays { OnOk result (KeepsFound image.now found.old found.new) }
    ensures look { IfOk result (λ look. LooksAlongAt image.now found.old.classes.items (found_in found.old) marks.now at context look) }
{
    match lead_at(image, found, at, context)? {
        Lead::Idle => Ok(Look::Stays),
        Lead::Breaks { turn: _ } => Ok(Look::Open),
        Lead::Traps { pc: _, tt: _ } => Ok(Look::Ends),
        Lead::Goes { to, more: _, first } => {
            let look = match number_of(image, found, at, context, to)? {
                Some(target) => look_by(marks[target as usize], first),
                None => Look::Open,
            };
            Ok(look)
        }
    }
}

// What a turn to a place that is marked or not finds.
fn look_by(is_marked: bool, is_first: bool) -> Look
    ensures { result ≡ look_of is_marked is_first }
{
    if is_marked {
        Look::Ends
    } else if is_first {
        Look::Alone
    } else {
        Look::Stays
    }
}
