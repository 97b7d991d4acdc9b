ghost use Rattle.std.specs.Prelude.{◌≡◌, ◌≢◌, ◌<◌, ◌≤◌, ℕ, List, IfSome, IfNone, length, slice_set, vec_capacity};
ghost use Rattle.dir_soft.specs.Chains.{no_index, head_at, line_at, next_at, unlinked, IsPath, IsChain, IsSpot, IsLoose, LineIsMissing, IsBeforeWithin};

use alw_num::NodeSet;

/// The index that ends a chain.
pub const END: u32 = 0xffff_ffff;

/// A place of the pool: a line with its set of nodes, and the index of the next place of its chain.
/// A place whose set is empty is free.
#[derive(Clone, Copy, PartialEq, Eq)]
pub struct PoolPlace {
    pub line: u32,
    pub next: u32,
    pub nodes: NodeSet,
}

/// A place on a chain, and the one before it, if it isn't the first.
#[derive(Clone, Copy, PartialEq, Eq)]
pub struct Spot {
    pub before: Option<u32>,
    pub at: u32,
}

/// The place of a line on the chain that starts at `first`.
pub fn find(places: &[PoolPlace], first: u32, line: u32) -> Option<Spot>
    requires { IsChain places.now first }
    ensures found { IfSome result (λ spot. (chain : List ℕ) → IsPath places.now first chain → IsSpot places.now chain spot) }
    ensures line { IfSome result (λ spot. line_at places.now spot.at ≡ line) }
    ensures within { IfSome result (λ spot. spot.at < length places.now) }
    ensures none { IfNone result ((chain : List ℕ) → IsPath places.now first chain → LineIsMissing places.now chain line) }
{
    let mut before = None;
    let mut at = first;
    while at != END {
        let place = places[at as usize];
        if place.line == line {
            return Some(Spot { before, at });
        }
        before = Some(at);
        at = place.next;
    }
    None
}

/// Takes the place at a spot out of its chain.
pub fn unlink(heads: &mut Vec<u32>, places: &mut Vec<PoolPlace>, chain: usize, spot: Spot)
    requires chain { chain < length heads.old.items }
    requires at { spot.at < length places.old.items }
    requires before { IsBeforeWithin spot.before (length places.old.items) }
    ensures chains { (heads.new.items, places.new.items) ≡ unlinked chain heads.old.items places.old.items spot.at spot.before }
    ensures memory { vec_capacity places.new ≡ vec_capacity places.old }
{
    let next = places[spot.at as usize].next;
    match spot.before {
        Some(before) => places[before as usize].next = next,
        None => heads[chain] = next,
    }
}

/// Puts a place at the front of a chain, with this line and set.
pub fn link(
    heads: &mut Vec<u32>,
    places: &mut Vec<PoolPlace>,
    chain: usize,
    at: u32,
    line: u32,
    nodes: NodeSet,
)
    requires chain { chain < length heads.old.items }
    requires at { at < length places.old.items }
    ensures heads { heads.new.items ≡ slice_set heads.old.items chain at }
    ensures places { places.new.items ≡ slice_set places.old.items at (record { line = line; nodes = nodes; next = head_at heads.old.items chain }) }
    ensures memory { vec_capacity places.new ≡ vec_capacity places.old }
{
    places[at as usize] = PoolPlace {
        line,
        next: heads[chain],
        nodes,
    };
    heads[chain] = at;
}

/// A place that is on no chain: the first of the free ones, which is taken off their chain, or, where
/// none is free, one more at the pool's end.
pub fn free_place(heads: &mut Vec<u32>, places: &mut Vec<PoolPlace>, free: usize) -> u32
    requires chain { free < length heads.old.items }
    requires first { head_at heads.old.items free ≢ no_index → head_at heads.old.items free < length places.old.items }
    requires room { head_at heads.old.items free ≡ no_index → length places.old.items < vec_capacity places.old }
    requires few { length places.old.items ≤ no_index }
    ensures place { IsLoose free heads.old.items places.old.items result heads.new.items places.new.items }
    ensures memory { vec_capacity places.new ≡ vec_capacity places.old }
{
    let first = heads[free];
    if first != END {
        let spot = Spot {
            before: None,
            at: first,
        };
        unlink(heads, places, free, spot);
        return first;
    }
    let at = places.len() as u32;
    places.push_reserved(PoolPlace {
        line: 0,
        next: END,
        nodes: NodeSet::empty(),
    });
    at
}
