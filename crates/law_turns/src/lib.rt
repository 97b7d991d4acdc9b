//! Turns on one memory are runs of the machine.
#![tactic(auto)]

ghost use Rattle.law_turns.specs.Endings.{EveryEndingIsReached};
ghost use Rattle.law_turns.specs.Going.{EveryJournalSettles, EveryRestGoesOn};
ghost use Rattle.law_turns.specs.Limits.{EveryTurnIsServedOrLate};
ghost use Rattle.law_turns.specs.Orders.{EveryOrderServes};
ghost use Rattle.law_turns.specs.Stuck.{NoJournalIsStuck, EveryJournalCanEnd};
ghost use Rattle.law_turns.specs.Turns.{EveryTurnIsServed};

/// With one context a node, turns of Ready contexts on the flat memory are a run of the machine, under
/// whatever parameters whose limit is large enough: a legal journal has exactly these turns, in this
/// order, serves one after the other, leaves nothing on its way, and has ended where all contexts have
/// halted or one has trapped. It evicts nothing, and ends nowhere before its last entry where no context
/// traps before the last turn.
#[tactic(auto, using(crate::proofs::Runs::every_turn_is_served))]
pub fn turns_are_served()
    ensures { EveryTurnIsServed }
{}

/// So what turns on the flat memory come to, a run of the machine comes to: the same memory and the
/// same words of each context where all have halted, or the same trap.
#[tactic(auto, using(crate::proofs::Endings::every_ending_is_reached))]
pub fn endings_are_reached()
    ensures { EveryEndingIsReached }
{}

/// From every legal journal the machine can come to rest, where the limit leaves room: slots with a
/// hold take their turns, and what is on its way is delivered.
#[tactic(auto, using(crate::proofs::Going::every_journal_settles))]
pub fn journals_settle()
    ensures { EveryJournalSettles }
{}

/// And from rest it goes on with any turns of Ready contexts on the flat memory.
#[tactic(auto, using(crate::proofs::Going::every_rest_goes_on))]
pub fn turns_go_on()
    ensures { EveryRestGoesOn }
{}

/// With any limit: turns of Ready contexts are a run of the machine, or a legal journal serves the first
/// of them and begins the next one, and an event of that is enabled whose stamp is above the limit.
#[tactic(auto, using(crate::proofs::Runs::every_turn_is_served_or_late))]
pub fn limit_alone_stops()
    ensures { EveryTurnIsServedOrLate }
{}

/// In whatever order deliveries and actions of the handler come, they serve a context that misses in a
/// machine at rest: they are few, one more may come while anything is on its way, and then the context's
/// instruction is its turn.
pub fn any_order_serves()
    ensures { EveryOrderServes }
{}

/// So where turns on the flat memory can always come to an end, the machine can from every legal
/// journal: it comes to rest, and from there flat turns that lead to an end are its own.
#[tactic(auto, using(crate::proofs::Stuck::no_journal_is_stuck))]
pub fn no_journal_is_stuck()
    ensures { NoJournalIsStuck }
{}

/// And each legal journal, under whatever parameters, comes to an end under each greater limit that leaves room for
/// turns which lead the flat memory there, as long as 32 bits are enough for the clocks.
#[tactic(auto, using(crate::proofs::Stuck::every_journal_can_end))]
pub fn every_journal_can_end()
    ensures { EveryJournalCanEnd }
{}
