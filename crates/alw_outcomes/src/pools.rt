ghost use Rattle.std.specs.Prelude.{◌≡◌, ◌<◌, ◌++◌, ◌∷◌, ◌-◌, ◌^◌, ◌↔◌, [], suc, ℕ, length, slice_get, slice_set, slice_index_or, Some, IfOk, IfSome, OnOk, IsTrue};
ghost use Rattle.alw_image.specs.Images.{line_count};
ghost use Rattle.alw_msg.specs.Statuses.{is_ready, is_halted};
ghost use Rattle.alw_places.specs.Places.{to_go};
ghost use Rattle.alw_outcomes.specs.Digests.{seat_digest, link_digest, memory_digest};
ghost use Rattle.alw_places.specs.Effects.{written};
ghost use Rattle.alw_places.specs.Threads.{effect_in, thread_turn, words_after};
ghost use Rattle.alw_outcomes.specs.Pools.{Numbered, HasGrown, LinksGoOn, ListHasWords, lists_of, thread_in, memory_in, seat_in, AreIn, ArePools, GoOn, IsIndexed};

use crate::digests::{mixed, of_lines, weighed};
use crate::pooled::{Pooled, number_in};
use crate::tables::Table;
use alw_flat::Memory;
use alw_image::Image;
use alw_msg::Status;
use alw_num::{Line, LineNo, NoMemory};
use alw_places::{left_by, run};
use sparc_exec::Outcome;
use sparc_table::Regs;
use std::alloc::Global;

/// A context, and the number of the list of what it has printed.
#[derive(Clone, Copy, PartialEq, Eq)]
pub struct Seat {
    pub regs: Regs,
    pub status: Status,
    pub list: u32,
}

/// A list of words by its last word and the number of the list before it. List 0 is empty.
#[derive(Clone, Copy, PartialEq, Eq)]
pub struct Link {
    pub before: u32,
    pub word: u32,
}

/// The number of a memory and that of a context.
#[derive(Clone, Copy, PartialEq, Eq)]
pub struct Numbers {
    pub memory: u32,
    pub seat: u32,
}

/// The different contexts, lists of printed words and memories of places, each with a number.
#[derive(Drop)]
pub struct Pools {
    pub seats: Vec<Seat>,
    pub links: Vec<Link>,
    pub memories: Vec<Memory>,
    pub by_seat: Table,
    pub by_link: Table,
    pub by_memory: Table,
}

impl Seat {
    /// How far the context may still go forward in the code.
    pub fn to_go(&self) -> u64
        ensures { result ≡ to_go (record { regs = self.now.regs; status = self.now.status }) }
    {
        if matches!(self.status, Status::Ready) {
            let (pc, npc) = (self.regs.pc, self.regs.npc);
            8_589_934_592 - (u64::from(pc) + u64::from(npc))
        } else {
            0
        }
    }

    /// The context can run.
    pub fn is_ready(&self) -> bool
        ensures { result ≡ is_ready self.now.status }
    {
        matches!(self.status, Status::Ready)
    }

    /// The context has halted.
    pub fn has_halted(&self) -> bool
        ensures { result ≡ is_halted self.now.status }
    {
        matches!(self.status, Status::Halted)
    }
}

impl Pooled for Seat {
    ghost digest_of = { seat_digest };

    fn is_same(&self, other: &Seat) -> bool {
        same_seat(self, other)
    }

    #[tactic(auto, unfolding(crate::specs::Digests::seat_digest))]
    fn digest(&self) -> u32 {
        let digest = mixed(mixed(self.regs.pc, self.regs.npc), self.list);
        mixed(weighed(digest, &self.regs.r), self.regs.y)
    }
}

impl Pooled for Link {
    ghost digest_of = { link_digest };

    fn is_same(&self, other: &Link) -> bool {
        self.before == other.before && self.word == other.word
    }

    #[tactic(auto, unfolding(crate::specs::Digests::link_digest))]
    fn digest(&self) -> u32 {
        mixed(mixed(1, self.before), self.word)
    }
}

impl Pooled for Memory {
    ghost digest_of = { memory_digest };

    fn is_same(&self, other: &Memory) -> bool {
        same_lines(self.values(), other.values())
    }

    fn digest(&self) -> u32 {
        of_lines(self.values())
    }
}

impl Pools {
    /// Pools of nothing but the empty list.
    pub fn empty(alloc: Global) -> Pools
        ensures lists { (result.seats.items ≡ []) × (result.links.items ≡ []) × (result.memories.items ≡ []) }
        ensures tables { (result.by_seat ≡ []) × (result.by_link ≡ []) × (result.by_memory ≡ []) }
    {
        Pools {
            seats: Vec::new(alloc),
            links: Vec::new(alloc),
            memories: Vec::new(alloc),
            by_seat: Table::empty(alloc),
            by_link: Table::empty(alloc),
            by_memory: Table::empty(alloc),
        }
    }
}

/// A turn of a context from its memory and its registers: what it leads to, and its outcome.
pub fn step(image: &Image, pools: &mut Pools, at: Numbers) -> Result<(Numbers, Outcome), NoMemory>
    requires at { AreIn pools.old at }
    requires pools { ArePools image.now pools.old }
    ensures grow { OnOk result (GoOn image.now pools.old pools.new) }
    ensures inside { IfOk result (λ next. AreIn pools.new next.0) }
    ensures turn { IfOk result (λ next. thread_in pools.new next.0 ≡ thread_turn image.now (thread_in pools.old at)) }
    ensures outcome { IfOk result (λ next. next.1 ≡ (effect_in image.now (thread_in pools.old at)).outcome) }
{
    let seat = pools.seats[at.seat as usize];
    let left = run(image, &seat.regs, &pools.memories[at.memory as usize]);
    let list = list_after(
        &mut pools.links,
        &mut pools.by_link,
        seat.list,
        left.outcome,
    )?;
    let status = left_by(&left.regs, left.outcome);
    let regs = left.regs;
    let after = Seat { regs, status, list };
    let number = number_in(&mut pools.seats, &mut pools.by_seat, after)?;
    let memory = memory_after(
        &mut pools.memories,
        &mut pools.by_memory,
        at.memory,
        left.wrote,
    )?;
    Ok((
        Numbers {
            memory,
            seat: number,
        },
        left.outcome,
    ))
}

// The number of the list once a turn has ended so.
fn list_after(
    links: &mut Vec<Link>,
    table: &mut Table,
    list: u32,
    outcome: Outcome,
) -> Result<u32, NoMemory>
    requires list { list < suc (length links.old.items) }
    requires back { (k : ℕ) → (link : Link) → slice_get links.old.items k ≡ Some link → link.before < suc k }
    requires indexed { IsIndexed link_digest links.old.items table.old }
    ensures links { OnOk result (LinksGoOn links.old.items links.new.items) }
    ensures words { IfOk result (λ after. ListHasWords links.new.items after (words_after (slice_index_or (lists_of links.old.items) list []) outcome)) }
    ensures indexed { OnOk result (IsIndexed link_digest links.new.items table.new) }
{
    match outcome {
        Outcome::Out { word } => {
            let link = Link { before: list, word };
            let at = number_in(links, table, link)?;
            Ok(at + 1)
        }
        _ => Ok(list),
    }
}

// The number of a memory once a line was written, if one was.
fn memory_after(
    memories: &mut Vec<Memory>,
    table: &mut Table,
    memory: u32,
    wrote: Option<(LineNo, Line)>,
) -> Result<u32, NoMemory>
    requires memory { memory < length memories.old.items }
    requires line { IfSome wrote (λ wrote. wrote.0.0 < length (slice_index_or memories.old.items memory [])) }
    requires indexed { IsIndexed memory_digest memories.old.items table.old }
    ensures memory { IfOk result (λ after. Numbered memories.old.items memories.new.items (written (slice_index_or memories.old.items memory []) wrote) after) }
    ensures indexed { OnOk result (IsIndexed memory_digest memories.new.items table.new) }
{
    match wrote {
        Some((line, value)) => {
            let mut after = memories[memory as usize].copy()?;
            after.set(line, value);
            let at = number_in(memories, table, after)?;
            Ok(at)
        }
        None => Ok(memory),
    }
}

// Both contexts, with the numbers of what they have printed, are the same.
fn same_seat(one: &Seat, other: &Seat) -> bool
    ensures { IsTrue result ↔ (one.now ≡ other.now) }
{
    same_regs(&one.regs, &other.regs)
        && same_status(&one.status, &other.status)
        && one.list == other.list
}

// Both registers are the same.
fn same_regs(one: &Regs, other: &Regs) -> bool
    ensures { IsTrue result ↔ (one.now ≡ other.now) }
{
    *one == *other
}

// Both do the same.
fn same_status(one: &Status, other: &Status) -> bool
    ensures { IsTrue result ↔ (one.now ≡ other.now) }
{
    *one == *other
}

// Both lists of lines are the same.
fn same_lines(one: &[Line], other: &[Line]) -> bool
    ensures { IsTrue result ↔ (one.now ≡ other.now) }
{
    if one.len() != other.len() {
        return false;
    }
    for (i, line) in one.iter().enumerate() {
        if *line != other[i] {
            return false;
        }
    }
    true
}
