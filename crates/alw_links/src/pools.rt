ghost use Rattle.std.specs.Prelude.{◌≡◌, ◌==◌, ◌<◌, ◌+◌, ◌≤◌, ◌^◌, Some, [], ◌∷◌, ◌++◌, not, length, slice_set, slice_index_or, if◌then◌else◌, OnOk, OnErr};
ghost use Rattle.alw_msg.specs.Lists.{behind, front, is_nonempty};
ghost use Rattle.alw_links.specs.Chains.{links_of, IsPool, IsPoolOf};

use alw_msg::{Kind, Msg};
use alw_num::{Line, LineNo, NoMemory, NodeNo};

/// The index that ends a chain.
pub const END: u32 = 0xffff_ffff;

// What a spare place has: no message of a machine.
const BLANK: Msg = Msg {
    kind: Kind::BUSY,
    line: LineNo(0),
    src: NodeNo(0),
    stamp: 0,
    body: Line::ZERO,
};

/// The first and the last place of a link, END where it is empty.
#[derive(Clone, Copy)]
pub struct Ends {
    pub first: u32,
    pub last: u32,
}

/// A place of the pool: a message, and the index of the next place of its chain.
#[derive(Clone, Copy)]
pub struct PoolPlace {
    pub msg: Msg,
    pub next: u32,
}

/// Places for messages, the first spare one, and how many are spare.
#[derive(Drop)]
pub struct Pool {
    pub places: Vec<PoolPlace>,
    pub spare: u32,
    pub room: u32,
}

/// So many spare places more. NoMemory also comes where an index would be the one that ends a chain.
pub fn widen(links: &Vec<Ends>, pool: &mut Pool, more: u32) -> Result<(), NoMemory>
    requires most { pool.old.room + more < 2 ^ 32 }
    requires pool { IsPool pool.old.places.items links.now.items pool.old.spare pool.old.room }
    ensures pool { IsPoolOf pool.new.places.items links.now.items pool.new.spare pool.new.room (links_of pool.old.places.items links.now.items) }
    ensures ok { OnOk result (pool.new.room ≡ pool.old.room + more) }
    ensures err { OnErr result (pool.new.room ≡ pool.old.room) }
{
    if pool.places.len() > (END - more) as usize {
        return Err(NoMemory);
    }
    pool.places.reserve(more as usize)?;
    for _ in 0..more {
        let next = pool.spare;
        pool.spare = pool.places.len() as u32;
        pool.places.push_reserved(PoolPlace { msg: BLANK, next });
        pool.room += 1;
    }
    Ok(())
}

/// Writes a message to the first spare place, and puts that place at the end of a link. Answers whether
/// the link was empty.
#[inline(always)]
pub fn push(links: &mut Vec<Ends>, pool: &mut Pool, at: usize, msg: Msg) -> bool
    requires at { at < length links.old.items }
    requires room { 1 ≤ pool.old.room }
    requires pool { IsPool pool.old.places.items links.old.items pool.old.spare pool.old.room }
    ensures pool { IsPoolOf pool.new.places.items links.new.items pool.new.spare pool.new.room (slice_set (links_of pool.old.places.items links.old.items) at (slice_index_or (links_of pool.old.places.items links.old.items) at [] ++ msg ∷ [])) }
    ensures room { pool.new.room + 1 ≡ pool.old.room }
    ensures first { result ≡ not (is_nonempty (slice_index_or (links_of pool.old.places.items links.old.items) at [])) }
{
    let ends = links[at];
    let free = pool.spare;
    pool.spare = pool.places[free as usize].next;
    pool.places[free as usize] = PoolPlace { msg, next: END };
    pool.room -= 1;
    if ends.last == END {
        links[at] = Ends {
            first: free,
            last: free,
        };
        return true;
    }
    links[at].last = free;
    pool.places[ends.last as usize].next = free;
    false
}

/// Takes the first place off a link that has one, and puts it before the spare ones. Answers its message,
/// and whether the link has another.
#[inline(always)]
pub fn pop(links: &mut Vec<Ends>, pool: &mut Pool, at: usize) -> (Msg, bool)
    requires at { at < length links.old.items }
    requires some { 1 ≤ length (slice_index_or (links_of pool.old.places.items links.old.items) at []) }
    requires pool { IsPool pool.old.places.items links.old.items pool.old.spare pool.old.room }
    ensures pool { IsPoolOf pool.new.places.items links.new.items pool.new.spare pool.new.room (slice_set (links_of pool.old.places.items links.old.items) at (behind (slice_index_or (links_of pool.old.places.items links.old.items) at []))) }
    ensures room { pool.new.room ≡ pool.old.room + 1 }
    ensures message { front (slice_index_or (links_of pool.old.places.items links.old.items) at []) ≡ Some result.0 }
    ensures more { result.1 ≡ is_nonempty (behind (slice_index_or (links_of pool.old.places.items links.old.items) at [])) }
{
    let ends = links[at];
    let place = pool.places[ends.first as usize];
    links[at] = Ends {
        first: place.next,
        last: end(place.next, ends.last),
    };
    pool.places[ends.first as usize].next = pool.spare;
    pool.spare = ends.first;
    pool.room += 1;
    (place.msg, place.next != END)
}

// The last place of a link from which the first was taken.
#[inline(always)]
fn end(next: u32, last: u32) -> u32
    ensures { result ≡ (if next == END then END else last) }
{
    if next == END { END } else { last }
}
