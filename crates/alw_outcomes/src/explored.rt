ghost use Rattle.std.specs.Prelude.{◌≡◌, ◌<◌, ◌≤◌, ◌+◌, ◌*◌, ◌++◌, ◌∷◌, ◌↔◌, [], length, map, take, drop, replicate, slice_get, slice_set, slice_index_or, ℕ, Some, true, false, max, IfOk, IfSome, IfNone, OnOk, IsTrue};
ghost use Rattle.std.specs.List.{range_with_len};
ghost use Rattle.alw_image.specs.Images.{line_count, context_count};
ghost use Rattle.alw_model.specs.Flat.{context_start};
ghost use Rattle.alw_model.specs.Contexts.{status_start};
ghost use Rattle.alw_places.specs.Places.{place_start};
ghost use Rattle.alw_places.specs.Outcomes.{HasEvery, all_halted};
ghost use Rattle.alw_places.specs.Threads.{thread_at, with_thread};
ghost use Rattle.alw_outcomes.specs.Pools.{context_of, no_seat, thread_in, AreIn, IsIndexed};
ghost use Rattle.alw_outcomes.specs.Digests.{seat_digest, row_digest};
ghost use Rattle.alw_msg.specs.Statuses.{is_halted};
ghost use Rattle.alw_outcomes.specs.Leads.{IsLead};
ghost use Rattle.alw_outcomes.specs.Explored.{found_in, place_in, places_in, row_in, rows_in, digest_in, endings_in, halted_in, IsStored, IsPlaceRow, AreAtStart, IsReal, IsClosed, LeadsTo, AddsPlace, GoesTo, IsPrivateTurn, HasTurn, TellsHalt, HasFull, HasExpanded, PlacesAreDifferent};

use crate::digests::{mixed, mixed_all};
use crate::leads::{Lead, lead_of};
use crate::pooled::number_in;
use crate::pools::{Numbers, Pools, Seat};
use crate::remembered::{Known, Remembered};
use crate::tables::Table;
use alw_flat::Memory;
use alw_image::Image;
use alw_msg::Status;
use alw_num::NoMemory;
use alw_places::{Broken, Class, contexts_of, lines_of};
use sparc_table::Regs;
use std::alloc::Global;

// The most private turns that are taken at once behind a turn.
const MOST_PRIVATE: u32 = 65_000;

/// Where a place came from: the number of an earlier place, and how many turns a context took from there.
#[derive(Clone, Copy, PartialEq, Eq)]
pub struct Origin {
    pub from: u32,
    pub context: u32,
    pub turns: u32,
}

/// A turn that traps: the number of its place, its context, PC and trap type.
#[derive(Clone, Copy, PartialEq, Eq)]
pub struct Trapped {
    pub at: u32,
    pub context: u32,
    pub pc: u32,
    pub tt: u8,
}

/// What a search has found: its hint, pools, leads, and of each place the number of its memory, those of its
/// contexts, and where it came from.
#[derive(Drop)]
pub struct Explored {
    pub width: u32,
    pub classes: Vec<Class>,
    pub pools: Pools,
    pub leads: Remembered,
    pub memories: Vec<u32>,
    pub rows: Vec<u32>,
    pub by_row: Table,
    pub origins: Vec<Origin>,
    pub halted: Vec<u32>,
    pub trapped: Vec<Trapped>,
    pub broken: Vec<Broken>,
    pub is_complete: bool,
}

// Finds every outcome of an image, or stops as incomplete where a turn doesn't keep to the hint, or
// where it would keep more places than it may.
pub(crate) fn explore_by(
    alloc: Global,
    image: &Image,
    classes: &[Class],
    most: u32,
) -> Result<Explored, NoMemory>
    ensures stored { IfOk result (λ found. IsStored image.now found) }
    ensures real { IfOk result (λ found. IsReal image.now (found_in found)) }
    ensures closed { IfOk result (λ found. IsTrue found.is_complete → IsClosed image.now found.classes.items (found_in found)) }
    ensures complete { IfOk result (λ found. IsTrue found.is_complete → HasEvery image.now (endings_in (found_in found))) }
    ensures hint { IfOk result (λ found. found.classes.items ≡ classes.now) }
    ensures stopped { IfOk result (λ found. found.is_complete ≡ false → length found.broken.items ≡ 0 → most ≤ length found.memories.items) }
    ensures few { IfOk result (λ found. length found.memories.items ≤ max most 1) }
    ensures different { IfOk result (λ found. PlacesAreDifferent (found_in found)) }
{
    let mut found = start(alloc, image, classes)?;
    let is_complete = expand_all(image, &mut found, most)?;
    found.is_complete = is_complete;
    Ok(found)
}

// Goes on from each place, and says whether all that there is was found.
fn expand_all(image: &Image, found: &mut Explored, most: u32) -> Result<bool, NoMemory>
    requires stored { IsStored image.now found.old }
    requires real { IsReal image.now (found_in found.old) }
    ensures stored { OnOk result (IsStored image.now found.new) }
    ensures real { OnOk result (IsReal image.now (found_in found.new)) }
    ensures hint { OnOk result (found.new.classes.items ≡ found.old.classes.items) }
    ensures closed { IfOk result (λ all. IsTrue all → IsClosed image.now found.new.classes.items (found_in found.new)) }
    ensures stopped { IfOk result (λ all. all ≡ false → length found.new.broken.items ≡ 0 → most ≤ length found.new.memories.items) }
    ensures few { OnOk result (length found.new.memories.items ≤ max most (length found.old.memories.items)) }
{
    for next in 0..most {
        if !found.broken.is_empty() {
            return Ok(false);
        }
        if next as usize >= found.memories.len() {
            return Ok(true);
        }
        if !expand(image, found, next, most)? {
            return Ok(false);
        }
    }
    if found.memories.len() > most as usize {
        return Ok(false);
    }
    Ok(found.broken.is_empty())
}

/// The contexts that take turns, one after the other, from the start to a place.
pub fn turns_to(
    alloc: Global,
    image: &Image,
    found: &Explored,
    at: u32,
) -> Result<Vec<u32>, NoMemory>
    requires at { at < length found.now.memories.items }
    requires real { IsReal image.now (found_in found.now) }
    ensures { IfOk result (λ turns. LeadsTo image.now (found_in found.now) at turns.items) }
{
    let _parts = image.parts(); // for its clause
    let mut turns = Vec::new(alloc);
    let mut place = at;
    while place != 0 {
        let origin = found.origins[place as usize];
        push_times(&mut turns, origin.context, origin.turns)?;
        place = origin.from;
    }
    turns.reverse();
    Ok(turns)
}

// Puts a context behind a list so many times.
fn push_times(turns: &mut Vec<u32>, context: u32, times: u32) -> Result<(), NoMemory>
    ensures { OnOk result (turns.new.items ≡ turns.old.items ++ replicate times context) }
{
    for _ in 0..times {
        turns.push(context)?;
    }
    Ok(())
}

// The start alone is found.
fn start(alloc: Global, image: &Image, classes: &[Class]) -> Result<Explored, NoMemory>
    ensures stored { IfOk result (λ found. IsStored image.now found) }
    ensures real { IfOk result (λ found. IsReal image.now (found_in found)) }
    ensures hint { IfOk result (λ found. found.classes.items ≡ classes.now) }
    ensures one { IfOk result (λ found. length found.memories.items ≡ 1) }
{
    let mut pools = Pools::empty(alloc);
    let memory = Memory::start(alloc, image, lines_of(image))?;
    let number = number_in(&mut pools.memories, &mut pools.by_memory, memory)?;
    let rows = seats_at_start(alloc, image, &mut pools.seats, &mut pools.by_seat)?;
    let mut by_row = Table::empty(alloc);
    by_row.add(digest_of(number, &rows))?;
    let mut memories = Vec::new(alloc);
    memories.push(number)?;
    let mut origins = Vec::new(alloc);
    origins.push(Origin {
        from: 0,
        context: 0,
        turns: 0,
    })?;
    Ok(Explored {
        width: contexts_of(image),
        classes: classes.to_vec(alloc)?,
        pools,
        leads: Remembered::empty(alloc),
        memories,
        rows,
        by_row,
        origins,
        halted: Vec::new(alloc),
        trapped: Vec::new(alloc),
        broken: Vec::new(alloc),
        is_complete: false,
    })
}

// The numbers of all contexts of an image, at the start.
fn seats_at_start(
    alloc: Global,
    image: &Image,
    seats: &mut Vec<Seat>,
    table: &mut Table,
) -> Result<Vec<u32>, NoMemory>
    requires none { seats.old.items ≡ [] }
    requires indexed { IsIndexed seat_digest seats.old.items table.old }
    ensures seats { IfOk result (λ rows. AreAtStart image.now seats.new.items rows.items (context_count image.now)) }
    ensures indexed { OnOk result (IsIndexed seat_digest seats.new.items table.new) }
{
    let count = contexts_of(image);
    let mut rows = Vec::new(alloc);
    for number in 0..count {
        let seat = seat_at_start(image, number, count);
        let at = number_in(seats, table, seat)?;
        rows.push(at)?;
    }
    Ok(rows)
}

// A context of an image, at the start: Halted where the image has no start for it.
fn seat_at_start(image: &Image, number: u32, count: u32) -> Seat
    requires number { number < count }
    requires count { count ≡ context_count image.now }
    ensures context { context_of result ≡ context_start image.now number }
    ensures list { result.list ≡ 0 }
{
    let start = image.start(number);
    let status = status_of(start);
    let regs = Regs::start(start.unwrap_or(0), number, count);
    Seat {
        regs,
        status,
        list: 0,
    }
}

// The status of a context at the start.
fn status_of(start: Option<u32>) -> Status
    ensures { result ≡ status_start start }
{
    if start.is_some() {
        Status::Ready
    } else {
        Status::Halted
    }
}

// Goes on from a place: by a private turn alone where there is one, and else by the turns of all contexts.
// It answers whether it could keep all places that they lead to.
fn expand(image: &Image, found: &mut Explored, at: u32, most: u32) -> Result<bool, NoMemory>
    requires at { at < length found.old.memories.items }
    requires stored { IsStored image.now found.old }
    requires real { IsReal image.now (found_in found.old) }
    ensures stored { OnOk result (IsStored image.now found.new) }
    ensures goes { OnOk result (GoesTo image.now (found_in found.old) (found_in found.new)) }
    ensures hint { OnOk result (found.new.classes.items ≡ found.old.classes.items) }
    ensures expanded { IfOk result (λ kept. IsTrue kept → HasExpanded image.now found.new.classes.items (found_in found.new) at) }
    ensures stopped { IfOk result (λ kept. kept ≡ false → most ≤ length found.new.memories.items) }
    ensures few { OnOk result (length found.new.memories.items ≤ max most (length found.old.memories.items)) }
{
    let alone = first_alone(image, found, at)?;
    match alone {
        Some(context) => {
            let kept = add_turn(image, found, at, context, most)?;
            Ok(kept)
        }
        None => {
            let kept = add_turns(image, found, at, most)?;
            Ok(kept)
        }
    }
}

// The first context with a private turn. Behind each turn those of its context are taken at once, so that
// none is left but at the first places, where some context has taken no turn.
fn first_alone(image: &Image, found: &mut Explored, at: u32) -> Result<Option<u32>, NoMemory>
    requires at { at < length found.old.memories.items }
    requires stored { IsStored image.now found.old }
    requires real { IsReal image.now (found_in found.old) }
    ensures stored { OnOk result (IsStored image.now found.new) }
    ensures same { OnOk result (found_in found.new ≡ found_in found.old) }
    ensures hint { OnOk result (found.new.classes.items ≡ found.old.classes.items) }
    ensures memories { OnOk result (found.new.memories.items ≡ found.old.memories.items) }
    ensures context { IfOk result (λ first. IfSome first (λ context. context < context_count image.now)) }
    ensures alone { IfOk result (λ first. IfSome first (λ context. IsPrivateTurn image.now found.new.classes.items (found_in found.new) at context)) }
{
    if at >= found.width {
        return Ok(None);
    }
    for context in 0..contexts_of(image) {
        if is_alone(image, found, at, context)? {
            return Ok(Some(context));
        }
    }
    Ok(None)
}

// A context's turn is private.
fn is_alone(image: &Image, found: &mut Explored, at: u32, context: u32) -> Result<bool, NoMemory>
    requires context { context < context_count image.now }
    requires at { at < length found.old.memories.items }
    requires stored { IsStored image.now found.old }
    requires real { IsReal image.now (found_in found.old) }
    ensures stored { OnOk result (IsStored image.now found.new) }
    ensures same { OnOk result (found_in found.new ≡ found_in found.old) }
    ensures hint { OnOk result (found.new.classes.items ≡ found.old.classes.items) }
    ensures memories { OnOk result (found.new.memories.items ≡ found.old.memories.items) }
    ensures alone { IfOk result (λ alone. IsTrue alone → IsPrivateTurn image.now found.new.classes.items (found_in found.new) at context) }
{
    let lead = lead_at(image, found, at, context)?;
    match lead {
        Lead::Goes {
            to: _,
            more: _,
            first,
        } => Ok(first),
        _ => Ok(false),
    }
}

// Goes on by the turns of all contexts.
fn add_turns(image: &Image, found: &mut Explored, at: u32, most: u32) -> Result<bool, NoMemory>
    requires at { at < length found.old.memories.items }
    requires stored { IsStored image.now found.old }
    requires real { IsReal image.now (found_in found.old) }
    ensures stored { OnOk result (IsStored image.now found.new) }
    ensures goes { OnOk result (GoesTo image.now (found_in found.old) (found_in found.new)) }
    ensures hint { OnOk result (found.new.classes.items ≡ found.old.classes.items) }
    ensures full { IfOk result (λ kept. IsTrue kept → HasFull image.now found.new.classes.items (found_in found.new) at) }
    ensures stopped { IfOk result (λ kept. kept ≡ false → most ≤ length found.new.memories.items) }
    ensures few { OnOk result (length found.new.memories.items ≤ max most (length found.old.memories.items)) }
{
    for context in 0..contexts_of(image) {
        if !add_turn(image, found, at, context, most)? {
            return Ok(false);
        }
    }
    tell_halt(image, found, at)?;
    Ok(true)
}

// Lists a place where all contexts have halted.
fn tell_halt(image: &Image, found: &mut Explored, at: u32) -> Result<(), NoMemory>
    requires at { at < length found.old.memories.items }
    requires stored { IsStored image.now found.old }
    requires real { IsReal image.now (found_in found.old) }
    ensures stored { OnOk result (IsStored image.now found.new) }
    ensures goes { OnOk result (GoesTo image.now (found_in found.old) (found_in found.new)) }
    ensures hint { OnOk result (found.new.classes.items ≡ found.old.classes.items) }
    ensures tells { OnOk result (TellsHalt (found_in found.new) at) }
    ensures memories { OnOk result (found.new.memories.items ≡ found.old.memories.items) }
{
    let _parts = image.parts(); // for its clause
    if has_halted(image, found, at) {
        found.halted.push(at)?;
    }
    Ok(())
}

// All contexts have halted at a place.
pub(crate) fn has_halted(image: &Image, found: &Explored, at: u32) -> bool
    requires at { at < length found.now.memories.items }
    requires stored { IsStored image.now found.now }
    ensures { result ≡ all_halted (place_in found.now at) }
{
    let _parts = image.parts(); // for its clause
    have_halted(&found.pools.seats, row_of(&found.rows, found.width, at))
}

// All contexts of a row have halted.
fn have_halted(seats: &[Seat], row: &[u32]) -> bool
    requires { (k s : ℕ) → slice_get row.now k ≡ Some s → s < length seats.now }
    ensures { result ≡ halted_in seats.now row.now }
{
    for seat in row {
        if !seat_halted(seats, *seat) {
            return false;
        }
    }
    true
}

// The context with this number has halted.
fn seat_halted(seats: &[Seat], at: u32) -> bool
    requires { at < length seats.now }
    ensures { result ≡ is_halted (slice_index_or seats.now at no_seat).status }
{
    seats[at as usize].has_halted()
}

// Finds what a context's turn leads to, and answers whether a place that it leads to could be kept.
fn add_turn(
    image: &Image,
    found: &mut Explored,
    at: u32,
    context: u32,
    most: u32,
) -> Result<bool, NoMemory>
    requires context { context < context_count image.now }
    requires at { at < length found.old.memories.items }
    requires stored { IsStored image.now found.old }
    requires real { IsReal image.now (found_in found.old) }
    ensures stored { OnOk result (IsStored image.now found.new) }
    ensures goes { OnOk result (GoesTo image.now (found_in found.old) (found_in found.new)) }
    ensures hint { OnOk result (found.new.classes.items ≡ found.old.classes.items) }
    ensures turn { IfOk result (λ kept. IsTrue kept → HasTurn image.now found.new.classes.items (found_in found.new) at context) }
    ensures stopped { IfOk result (λ kept. kept ≡ false → most ≤ length found.new.memories.items) }
    ensures few { OnOk result (length found.new.memories.items ≤ max most (length found.old.memories.items)) }
{
    let lead = lead_at(image, found, at, context)?;
    match lead {
        Lead::Idle => Ok(true),
        Lead::Breaks { turn } => {
            found.broken.push(turn)?;
            Ok(true)
        }
        Lead::Traps { pc, tt } => {
            found.trapped.push(Trapped {
                at,
                context,
                pc,
                tt,
            })?;
            Ok(true)
        }
        Lead::Goes { to, more, first: _ } => {
            let kept = add(image, found, at, context, to, more, most)?;
            Ok(kept)
        }
    }
}

// What the turn of a context leads to from a place.
pub(crate) fn lead_at(
    image: &Image,
    found: &mut Explored,
    at: u32,
    context: u32,
) -> Result<Lead, NoMemory>
    requires context { context < context_count image.now }
    requires at { at < length found.old.memories.items }
    requires stored { IsStored image.now found.old }
    ensures stored { OnOk result (IsStored image.now found.new) }
    ensures same { OnOk result (found_in found.new ≡ found_in found.old) }
    ensures hint { OnOk result (found.new.classes.items ≡ found.old.classes.items) }
    ensures memories { OnOk result (found.new.memories.items ≡ found.old.memories.items) }
    ensures lead { IfOk result (λ lead. IsLead image.now found.new.classes.items context (thread_at (place_in found.new at) context) found.new.pools lead) }
{
    let here = numbers_at(image, found, at, context);
    if let Some(lead) = found.leads.find(here, context) {
        return Ok(lead);
    }
    let lead = lead_of(
        image,
        &found.classes,
        &mut found.pools,
        here,
        context,
        MOST_PRIVATE,
    )?;
    let known = Known {
        at: here,
        context,
        lead,
    };
    found.leads.note(known, found.memories.len() / 4 + 1024)?;
    Ok(lead)
}

// The numbers of a context and the memory at a place.
pub(crate) fn numbers_at(image: &Image, found: &Explored, at: u32, context: u32) -> Numbers
    requires context { context < context_count image.now }
    requires at { at < length found.now.memories.items }
    requires stored { IsStored image.now found.now }
    ensures inside { AreIn found.now.pools result }
    ensures thread { thread_in found.now.pools result ≡ thread_at (place_in found.now at) context }
{
    let _parts = image.parts(); // for its clause
    let row = row_of(&found.rows, found.width, at);
    Numbers {
        memory: found.memories[at as usize],
        seat: row[context as usize],
    }
}

// The numbers of the contexts at a place.
fn row_of(rows: &[u32], width: u32, at: u32) -> &[u32]
    requires { at * width + width ≤ length rows.now }
    ensures { result.now ≡ take width (drop (at * width) rows.now) }
{
    let (_before, rest) = rows.split_at(at as usize * width as usize);
    let (row, _after) = rest.split_at(width as usize);
    row
}

// Finds the place at which a context's turns from another lead, which may be found already. It answers
// whether the place is kept: one more than may be kept is left out.
fn add(
    image: &Image,
    found: &mut Explored,
    at: u32,
    context: u32,
    to: Numbers,
    more: u32,
    most: u32,
) -> Result<bool, NoMemory>
    requires context { context < context_count image.now }
    requires at { at < length found.old.memories.items }
    requires to { AreIn found.old.pools to }
    requires stored { IsStored image.now found.old }
    ensures stored { OnOk result (IsStored image.now found.new) }
    ensures hint { OnOk result (found.new.classes.items ≡ found.old.classes.items) }
    ensures adds { IfOk result (λ kept. IsTrue kept → AddsPlace (found_in found.old) (found_in found.new) (with_thread (place_in found.old at) context (thread_in found.old.pools to)) (record { from = at; context = context; turns = more + 1 })) }
    ensures full { IfOk result (λ kept. kept ≡ false → found_in found.new ≡ found_in found.old) }
    ensures stopped { IfOk result (λ kept. kept ≡ false → most ≤ length found.new.memories.items) }
    ensures few { OnOk result (length found.new.memories.items ≤ max most (length found.old.memories.items)) }
{
    let _parts = image.parts(); // for its clause
    if more == u32::MAX {
        return Err(NoMemory);
    }
    let row = changed_row(found, at, context, to.seat)?;
    let digest = digest_of(to.memory, &row);
    match find_row(found, to.memory, &row, digest) {
        Some(_at) => return Ok(true),
        None => {}
    }
    if found.memories.len() >= most as usize {
        return Ok(false);
    }
    found.by_row.add(digest)?;
    found.memories.push(to.memory)?;
    found.rows.extend_from_slice(&row)?;
    found.origins.push(Origin {
        from: at,
        context,
        turns: more + 1,
    })?;
    Ok(true)
}

// The number of the place at which a context's turns from another lead, if it is kept.
pub(crate) fn number_of(
    image: &Image,
    found: &Explored,
    at: u32,
    context: u32,
    to: Numbers,
) -> Result<Option<u32>, NoMemory>
    requires context { context < context_count image.now }
    requires at { at < length found.now.memories.items }
    requires to { AreIn found.now.pools to }
    requires stored { IsStored image.now found.now }
    ensures { IfOk result (λ number. IfSome number (λ k. slice_get (places_in found.now) k ≡ Some (with_thread (place_in found.now at) context (thread_in found.now.pools to)))) }
{
    let _parts = image.parts(); // for its clause
    let row = changed_row(found, at, context, to.seat)?;
    let number = find_row(found, to.memory, &row, digest_of(to.memory, &row));
    Ok(number)
}

// The numbers of the contexts at a place, with another one for a context.
fn changed_row(found: &Explored, at: u32, context: u32, seat: u32) -> Result<Vec<u32>, NoMemory>
    requires context { context < found.now.width }
    requires at { at * found.now.width + found.now.width ≤ length found.now.rows.items }
    ensures { IfOk result (λ row. row.items ≡ slice_set (row_in found.now at) context seat) }
{
    let mut row = Vec::with_capacity(*found.rows.allocator(), found.width as usize)?;
    row.extend_from_slice(row_of(&found.rows, found.width, at))?;
    row[context as usize] = seat;
    Ok(row)
}

// The number of the place with this memory and these contexts, if it is kept.
fn find_row(found: &Explored, memory: u32, row: &[u32], digest: u32) -> Option<u32>
    requires rows { length found.now.rows.items ≡ length found.now.memories.items * found.now.width }
    requires indexed { IsIndexed digest_in (rows_in found.now) found.now.by_row }
    requires digest { digest ≡ row_digest memory row.now }
    ensures some { IfSome result (λ at. IsPlaceRow found.now at memory row.now) }
    ensures none { IfNone result ((at : ℕ) → IsPlaceRow found.now at memory row.now → ⊥) }
{
    let mut rest = found.by_row.last(digest);
    while rest != 0 {
        let at = rest - 1;
        if is_row(found, at, memory, row) {
            return Some(at);
        }
        rest = found.by_row.before(digest, at);
    }
    None
}

// The place with this number has this memory and these contexts.
fn is_row(found: &Explored, at: u32, memory: u32, row: &[u32]) -> bool
    requires at { at < length found.now.memories.items }
    requires rows { length found.now.rows.items ≡ length found.now.memories.items * found.now.width }
    ensures { IsTrue result ↔ IsPlaceRow found.now at memory row.now }
{
    found.memories[at as usize] == memory && same_row(row_of(&found.rows, found.width, at), row)
}

// Both rows are the same.
fn same_row(one: &[u32], other: &[u32]) -> bool
    ensures { IsTrue result ↔ (one.now ≡ other.now) }
{
    one == other
}

// A number that is the same for the same memory and contexts.
#[tactic(auto, unfolding(crate::specs::Digests::row_digest))]
fn digest_of(memory: u32, row: &[u32]) -> u32
    ensures { result ≡ row_digest memory row.now }
{
    mixed_all(mixed(7, memory), row)
}
