//! The audit of a claim: whether a program, run on one flat memory, says the same.
#![tactic(auto)]

mod auditing;
mod laws;
mod memory;
mod prints;
mod verdicts;

pub use auditing::audit;
pub use laws::runs_claim_what_is_sound;
pub use verdicts::{Difference, Verdict};
