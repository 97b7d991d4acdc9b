//! What is counted in a run of the machine as it goes.
#![tactic(auto)]

mod counting;
mod laws;
mod moments;
mod remains;
mod tallies;

pub use laws::{remains_by_event, told_event_by_event};
pub use moments::Moment;
pub use remains::Remains;
pub use tallies::Tally;
