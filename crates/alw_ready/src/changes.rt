ghost use Rattle.std.specs.Prelude.{◌≡◌};
ghost use Rattle.alw_msg.specs.Contents.{content};
ghost use Rattle.alw_ready.specs.Changes.{brings, is_wide};

use alw_model::Did;
use alw_msg::{Event, Kind, Msg};

/// What is told of an event that happened.
#[derive(Clone, Copy, PartialEq, Eq)]
pub struct Happened {
    /// The event.
    pub event: Event,
    /// It may have changed what keeps other messages on their links to its node.
    pub wide: bool,
    /// With it every context has halted.
    pub halted: bool,
}

/// Whether an event may have changed what keeps other messages on their links to its node, by what it
/// did, the message that it took, and whether the node's number of holds changed: an instruction ended a
/// hold, a line came, or a line became Trans-In-Progress or ceased to be.
#[inline(always)]
pub fn is_wide(did: Did, taken: Option<Msg>, changes_holds: bool) -> bool
    ensures { result ≡ is_wide did taken changes_holds }
{
    match did {
        Did::Turn { .. } | Did::Missed { .. } => changes_holds,
        Did::Took => match taken {
            Some(msg) => brings(&msg),
            None => false,
        },
        Did::Packet | Did::Handled { .. } => true,
        Did::Evicted => false,
    }
}

// A message brings its line to a cache.
#[inline(always)]
fn brings(msg: &Msg) -> bool
    ensures { result ≡ brings (content msg.now) }
{
    match msg.kind {
        Kind::RDATA | Kind::WDATA => true,
        Kind::RREQ | Kind::WREQ | Kind::REPM | Kind::UPDATE | Kind::ACKC => false,
        Kind::INV | Kind::BUSY => false,
    }
}
