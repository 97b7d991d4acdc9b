//! A home as hardware runs it: a message to memory is acted on over the hardware pointers, or traps.
#![tactic(auto)]

mod deliveries;
mod reactions;

pub use deliveries::{Acted, deliver};
pub use reactions::react;
