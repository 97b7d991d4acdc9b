//! What a report tells of a machine.
#![tactic(auto)]

mod telling;

pub use telling::{memory_of, tell, tell_head};
