//! The schedule of a seed: the events that its draws pick, up to an end.
#![tactic(auto)]

mod laws;
mod schedules;

pub use laws::{
    one_run_a_seed, refused_runs_go_on, seeded_runs_are_bounded, seeded_runs_are_scheduled,
};
pub use schedules::finish;
