//! The whole machine follows the protocol of one line, for each line: what an event of the machine
//! is to a line, and what that gives. The functions are laws with empty bodies: each clause is a
//! theorem over the definitions in specs/.
#![tactic(auto)]

mod events_followed;

pub use events_followed::{lines_follow, messages_keep_their_order};
