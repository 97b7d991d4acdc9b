ghost use Rattle.std.specs.Prelude.{◌≡◌, ◌≤◌, ◌↔◌, IsSome, IfSome};
ghost use Rattle.alw_image.specs.Parameters.{Parameters, AreParameters, parameters_for};

use std::marker::Model;

/// The most hardware pointers of an entry that isn't a full map.
pub const FEW_POINTERS: u16 = 8;

/// The most hardware pointers that an entry can have: one for each of as many nodes as there can be.
pub const MOST_POINTERS: u16 = 256;

/// How many sets a cache can have: a power of two from 4 to 4096.
pub const SET_COUNTS: [u32; 11] = [4, 8, 16, 32, 64, 128, 256, 512, 1024, 2048, 4096];

/// The most that the greatest stamp of an event can be set to.
pub const MOST_LIMIT: u32 = 1_048_576;

/// The parameters of a run: hardware pointers of an entry (1 to `MOST_POINTERS`), sets of a cache
/// (one of `SET_COUNTS`), the greatest stamp of an event (1 to `MOST_LIMIT`), and how often of 256 a
/// schedule tries an eviction (0 to 255).
#[derive(Clone, Copy, PartialEq, Eq)]
pub struct Params {
    pointers: u16,
    sets: u32,
    limit: u32,
    evict: u8,
}

impl Model for Params {
    ghost use Rattle.alw_image.specs.Parameters.{Parameters, AreParameters};

    ghost Value = { Parameters };

    ghost view = { λ p. record { pointers = p.pointers; sets = p.sets; limit = p.limit; evict = p.evict } };

    ghost invariant = { λ p. AreParameters (record { pointers = p.pointers; sets = p.sets; limit = p.limit; evict = p.evict }) };

    ghost inverse = { λ p. record { pointers = p.pointers; sets = p.sets; limit = p.limit; evict = p.evict } };
}

impl Params {
    /// These parameters. None exactly where one of the four is outside its range.
    pub fn new(pointers: u16, sets: u32, limit: u32, evict: u8) -> Option<Params>
        ensures allowed { IsSome result ↔ AreParameters (record { pointers = pointers; sets = sets; limit = limit; evict = evict }) }
        ensures value { IfSome result (λ p. p ≡ record { pointers = pointers; sets = sets; limit = limit; evict = evict }) }
    {
        if (1..=MOST_POINTERS).contains(&pointers)
            && SET_COUNTS.contains(&sets)
            && (1..=MOST_LIMIT).contains(&limit)
        {
            Some(Params::of(pointers, sets, limit, evict))
        } else {
            None
        }
    }

    /// The parameters of these values, each of which is within its range.
    pub fn of(pointers: u16, sets: u32, limit: u32, evict: u8) -> Params
        requires { AreParameters (record { pointers = pointers; sets = sets; limit = limit; evict = evict }) }
        ensures { result ≡ record { pointers = pointers; sets = sets; limit = limit; evict = evict } }
    {
        Params {
            pointers,
            sets,
            limit,
            evict,
        }
    }

    /// These for a machine of so many nodes: where an entry is to have more than a few pointers, it has one for
    /// each node, and so is a full map.
    pub fn for_nodes(&self, nodes: u16) -> Params
        requires some { 1 ≤ nodes }
        requires most { nodes ≤ MOST_POINTERS }
        ensures { result ≡ parameters_for nodes self.now }
    {
        let pointers = if self.pointers <= FEW_POINTERS {
            self.pointers
        } else {
            nodes
        };
        Params { pointers, ..*self }
    }

    /// Hardware pointers of an entry.
    pub fn pointers(&self) -> u16
        ensures value { result ≡ self.now.pointers }
        ensures allowed { AreParameters self.now }
    {
        self.pointers
    }

    /// Sets of a cache.
    pub fn sets(&self) -> u32
        ensures value { result ≡ self.now.sets }
        ensures allowed { AreParameters self.now }
    {
        self.sets
    }

    /// The greatest stamp of an event before all contexts are halted.
    pub fn limit(&self) -> u32
        ensures value { result ≡ self.now.limit }
        ensures allowed { AreParameters self.now }
    {
        self.limit
    }

    /// How often of 256 a schedule tries an eviction.
    pub fn evict(&self) -> u8
        ensures value { result ≡ self.now.evict }
        ensures allowed { AreParameters self.now }
    {
        self.evict
    }
}
