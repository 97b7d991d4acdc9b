//! The logs of all nodes merged, with the machine that they leave. The replay of a trace is handed on.
#![tactic(auto)]

mod heads;
mod joins;
mod laws;
mod merges;
mod replays;
mod spans;
mod streams;
mod walks;

pub use alw_replay::{Replayed, replay, take};
pub use joins::{join, join_by};
pub use laws::{merges_are_kept, traps_are_turns};
pub use merges::{merge, stream};
pub use replays::replay_logs;
pub use streams::Stream;
