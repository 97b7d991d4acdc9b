//! The order of a journal's entries: which may change places, and what comes of sorting a journal by
//! stamps, of cutting it at one, and of merging the logs of nodes that ran side by side. The functions
//! are laws with empty bodies: each clause is a theorem over the definitions in specs/.
#![tactic(auto)]

mod local_laws;
mod merge_laws;
mod order_laws;
mod worked;

pub use local_laws::{events_are_local, node_stamps_rise};
pub use merge_laws::{agreeing_logs_merge, logs_of_a_journal_merge};
pub use order_laws::{
    cut_is_legal, neighbours_swap, same_entries_same_state, sorted_journal_is_legal,
};
pub use worked::worked_journal;
