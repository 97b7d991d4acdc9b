ghost use Rattle.std.specs.Prelude.{◌≡◌};
ghost use Rattle.alw_model.specs.Counts.{is_spill};

use alw_msg::Kind;
use alw_num::State;
use sparc_table::Outcome;

/// The numbers of a run: its entries, turns, misses and evictions; the messages sent, by kind; the
/// hops of all messages, in columns and rows of the mesh; the handler's actions, and those on an RREQ
/// for a line in Read-Only; RDATA and WDATA delivered; turns that ended a hold.
#[derive(Clone, Copy, Default, PartialEq, Eq)]
pub struct Counts {
    pub entries: u64,
    pub turns: u64,
    pub misses: u64,
    pub evicts: u64,
    pub rreq: u64,
    pub wreq: u64,
    pub repm: u64,
    pub update: u64,
    pub ackc: u64,
    pub rdata: u64,
    pub wdata: u64,
    pub inv: u64,
    pub busy: u64,
    pub hops: u64,
    pub handlers: u64,
    pub spills: u64,
    pub replies: u64,
    pub used: u64,
}

/// What the home table does to the pointers P of an entry with a message: the sender joins them, is
/// then the only one, none is left, or they stay.
#[derive(Clone, Copy, PartialEq, Eq)]
pub enum Keeping {
    Joined,
    Alone,
    Emptied,
    Kept,
}

/// What an event of a node did: a turn of a slot with its outcome, a miss of a slot, a delivery on
/// which the cache or the home's hardware acted, a delivery that trapped, a packet that was handled
/// with its kind and the home's state before, or an eviction.
#[derive(Clone, Copy, PartialEq, Eq)]
pub enum Did {
    Turn { slot: u8, outcome: Outcome },
    Missed { slot: u8 },
    Took,
    Packet,
    Handled { kind: Kind, state: State },
    Evicted,
}

impl Did {
    /// The handler acted on an RREQ for a line in Read-Only.
    pub fn is_spill(self) -> bool
        ensures { result ≡ is_spill self }
    {
        matches!(
            self,
            Did::Handled {
                kind: Kind::RREQ,
                state: State::RO
            }
        )
    }
}
