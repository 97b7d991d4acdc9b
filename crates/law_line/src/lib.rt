//! The protocol of one line as a machine of its own, and what holds after every legal run of it, for
//! any number of nodes (Chaiken, Kubiatowicz and Agarwal, ASPLOS 1991, over full-map entries). The
//! functions are laws with empty bodies: each clause is a theorem over the definitions in specs/.
#![tactic(auto)]

mod copies;
mod invariant;
mod messages;
mod worked;

pub use copies::{copies_hold_the_value, writers_are_alone};
pub use invariant::{each_event_keeps_it, line_invariant};
pub use messages::{
    answers_are_owed, at_rest, no_unlisted_combination, replies_end_transactions,
    transactions_go_on,
};
pub use worked::{line_crosses_its_recall, line_is_handed_over, two_answers_are_awaited};
