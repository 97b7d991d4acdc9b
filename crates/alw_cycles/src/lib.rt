//! The commands that tell how long a run takes: the run of a trace, and a run by the timed schedule. They know no stream
//! and no status.
#![tactic(auto)]

mod running;
mod texts;
mod timing;

pub use running::run_by_time;
pub use timing::time_bytes;
