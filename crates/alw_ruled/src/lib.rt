//! The links between workers: queues of messages of which one thread knows all that was pushed, and one
//! all that was popped.
#![tactic(auto)]

mod links;
mod rule;

pub use links::{Ends, Link, RecvPass, SendErr, SendPass};
