//! The commands that run a machine by a seed or by a trace, each a function from bytes to what it makes, and what a run
//! is told as. They know no stream and no status.
#![tactic(auto)]

mod forms;
mod replaying;
mod running;

pub use forms::{output_with, told};
pub use replaying::{end_of_trace, replay_bytes};
pub use running::run_bytes;
