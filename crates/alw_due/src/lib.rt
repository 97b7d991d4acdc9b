//! The timed schedule: of the events that are due, the one that starts first, up to an end.
#![tactic(auto)]

mod bests;
mod keys;
mod laws;
mod picking;
mod renewing;
mod schedules;

pub use laws::{
    nothing_due_starts_earlier, one_run_by_time, starts_never_decrease, timed_runs_are_scheduled,
};
pub use schedules::finish_by_time;
