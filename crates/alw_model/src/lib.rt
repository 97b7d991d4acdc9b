//! The machine, defined: the full-map directory, LimitLESS directories, caches, contexts, links and
//! events that all proofs speak of. The definitions stand in specs/. The functions are laws with
//! empty bodies: each says of a worked run what the definitions give.
#![tactic(auto)]

mod ends;
mod laws;
mod runs_of_one;
mod runs_of_three;
mod runs_of_two;
mod runs_recorded;
mod steps;

pub use ends::{Ended, TrapAt};
pub use laws::{legal_as_tested, log_stamps_rise, one_more_entry, one_more_event, sound_as_tested};
pub use runs_of_one::{limit_ends, link_to_itself, one_set, trap_ends, two_contexts_one_line};
pub use runs_of_three::{crossing_messages, one_node_in_both_sets, silent_drop, spill};
pub use runs_of_two::{hold_until_used, progress_blocks, trap_always, two_logs_merge, two_writers};
pub use runs_recorded::recorded_run;
pub use steps::{Counts, Did, Keeping};
