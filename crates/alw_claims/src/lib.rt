//! The turns of a claim on the flat memory, in words.
#![tactic(auto)]

mod logs;
mod sights;

pub use logs::claim_log;
