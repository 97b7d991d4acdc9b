ghost use Rattle.std.specs.Prelude.{◌≡◌, ◌<◌, ◌≤◌, Bool, false, IsTrue};
ghost use Rattle.alw_num.specs.NodeSets.{Nodes, no_nodes, count_nodes};
ghost use Rattle.alw_msg.specs.Kinds.{to_memory};
ghost use Rattle.alw_model.specs.LimitLess.{is_trapped, overflows};
ghost use Rattle.alw_msg.specs.Contents.{content};
ghost use Rattle.dir_full.specs.Reactions.{HasRoom};
ghost use Rattle.alw_home.specs.Entries.{directory_of};
ghost use Rattle.alw_home.specs.Deliveries.{is_overflow, is_trap, Delivers};

use crate::reactions::react;
use alw_model::Keeping;
use alw_msg::{Kind, Msg, Sends};
use alw_num::{MOST_NODES, Meta, State};
use dir_hw::HomeEntry;

/// What became of a message to memory: hardware acted on it, it trapped, or it stays at the head of
/// its link because the line is Trans-In-Progress.
#[derive(Clone, Copy, PartialEq, Eq)]
pub enum Acted {
    Acted,
    Trapped,
    Blocked,
}

/// Delivers a message to memory at its home, whose entry may have so many hardware pointers (ASPLOS
/// 1991, section 4). What hardware sends is appended to `sent`.
pub fn deliver(entry: &mut HomeEntry, pointers: u16, msg: &Msg, sent: &mut Sends) -> Acted
    requires to_memory { IsTrue (to_memory msg.now.kind) }
    requires some { 1 ≤ pointers }
    requires few { count_nodes entry.old.pointers ≤ pointers }
    requires room { HasRoom entry.old.pointers msg.now.src.0 sent.old }
    ensures { (software : Nodes) → (always : Bool) →
        Delivers pointers (directory_of entry.old software always) (directory_of entry.new software always) sent.old sent.new result msg.now }
{
    let _fits = sent.free(); // for its clause
    if entry.meta == Meta::Progress {
        return Acted::Blocked;
    }
    if traps(entry, pointers, msg) {
        entry.meta = Meta::Progress;
        return Acted::Trapped;
    }
    let set = entry.pointers();
    match react(entry, set, msg, sent) {
        Keeping::Joined => {
            entry.add_pointer(msg.src, pointers);
        }
        Keeping::Alone => entry.only(msg.src),
        Keeping::Emptied => entry.clear(),
        Keeping::Kept => {}
    }
    Acted::Acted
}

// Whether a message traps.
fn traps(entry: &HomeEntry, most: u16, msg: &Msg) -> bool
    requires to_memory { IsTrue (to_memory msg.now.kind) }
    requires node { msg.now.src.0 < MOST_NODES }
    ensures { result ≡ is_trap most (directory_of entry.now no_nodes false) msg.now.src.0 (content msg.now) }
{
    let is_write = matches!(msg.kind, Kind::WREQ | Kind::UPDATE | Kind::REPM);
    match entry.meta {
        Meta::Normal => overflows(entry, most, msg),
        Meta::Progress => false,
        Meta::TrapWrite => is_write || overflows(entry, most, msg),
        Meta::TrapAlways => true,
    }
}

// A read finds no pointer left.
fn overflows(entry: &HomeEntry, most: u16, msg: &Msg) -> bool
    requires { msg.now.src.0 < MOST_NODES }
    ensures { result ≡ is_overflow most entry.now.pointers msg.now.src.0 entry.now.state (content msg.now) }
{
    entry.state == State::RO
        && msg.kind == Kind::RREQ
        && !entry.pointers.has(msg.src)
        && entry.pointers.len() == most
}
