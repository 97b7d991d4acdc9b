//! The times of a run: its events are taken again with them, and their texts.
#![tactic(auto)]

mod looks;
mod tables;
mod taking;
mod texts;
mod timing;

pub use texts::{cycles_text, moments_text};
pub use timing::{RunTimes, Tells, TimedRun, Timekeeper, time};
