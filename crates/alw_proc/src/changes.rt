ghost use Rattle.std.specs.Prelude.{◌≡◌, ◌<◌, ◌/◌, ℕ, [], length, nat_lt, IsTrue};
ghost use Rattle.alw_num.specs.Maps.{value_at, without_value, passes, passes_if_some};
ghost use Rattle.alw_model.specs.Caches.{replaced};
ghost use Rattle.alw_model.specs.Contexts.{is_held};
ghost use Rattle.alw_model.specs.ProcessorSteps.{opened, slots_after};
ghost use Rattle.alw_proc.specs.Openings.{OpeningIsNotOf};
ghost use Rattle.alw_proc.specs.Homeward.{with_requests};
ghost use Rattle.alw_proc.specs.Turns.{SlotRuns};

use crate::homeward::send;
use crate::openings::Openings;
use crate::shared::Shared;
use alw_cache::Cache;
use alw_ctx::Contexts;
use alw_msg::{Kind, Sends};
use alw_num::{Divisor, Line, LineNo, Mode};
use sparc_exec::{Outcome, Program};

/// A turn of a slot over the node's cache: on the slot's registers and the cache's copies where they stand.
pub fn take_turn(contexts: &mut Contexts, shared: &mut Shared, slot: u8, code: &Program) -> Outcome
    requires { slot < length contexts.old.slots }
    ensures { SlotRuns code.now slot contexts.old shared.old contexts.new shared.new result }
{
    let _placed = shared.cache.sets(); // for its clause
    let outcome = contexts.turn(slot, code, shared);
    let _stay = shared.cache.sets(); // for its clause
    outcome
}

/// The transaction on a line ends, where there is one: its waiters become Ready, and where the line
/// came its opener gets a hold on it.
pub fn end(contexts: &mut Contexts, openings: &mut Openings, line: LineNo, came: bool)
    requires { IsTrue (passes_if_some (λ transaction. nat_lt transaction.opener (length contexts.old.slots)) (value_at openings.old line.0)) }
    ensures contexts { contexts.new ≡ record contexts.old { slots = slots_after contexts.old.slots line.0 came (value_at openings.old line.0) } }
    ensures openings { openings.new ≡ without_value openings.old line.0 }
{
    if let Some(opener) = openings.end(line) {
        contexts.wake(line);
        if came {
            contexts.hold(opener, line);
        }
    }
}

/// A transaction is opened in the name of a slot, and the line's home asked, where the line has none.
pub fn ask(
    openings: &mut Openings,
    slot: u8,
    line: LineNo,
    mode: Mode,
    per_node: Divisor,
    sent: &mut Sends,
)
    requires slot { slot < 4 }
    requires free { (l : ℕ) → OpeningIsNotOf slot (value_at openings.old l) }
    requires home { line.0 / per_node < 65536 }
    requires empty { sent.old.messages ≡ [] }
    requires room { 0 < sent.old.room }
    ensures openings { openings.new ≡ (opened openings.old line.0 mode slot (value_at openings.old line.0)).0 }
    ensures sends { sent.new ≡ with_requests per_node sent.old (opened openings.old line.0 mode slot (value_at openings.old line.0)).1 }
{
    if openings.of(line).is_some() {
        return;
    }
    openings.open(slot, line, mode);
    let kind = match mode {
        Mode::Read => Kind::RREQ,
        Mode::Write => Kind::WREQ,
    };
    send(kind, line, Line::ZERO, per_node, sent);
}

/// A copy of this line would replace the copy of another line that is held.
pub fn replaces_held(contexts: &Contexts, cache: &Cache, line: LineNo) -> bool
    ensures { result ≡ passes (λ copy. is_held contexts.now.slots copy.line) (replaced cache.now.sets cache.now.copies line.0) }
{
    match cache.held(cache.set(line)) {
        Some(other) => other != line && contexts.is_held(other),
        None => false,
    }
}
