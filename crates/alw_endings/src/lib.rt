//! What an image can come to, whatever the schedule: the value, its text, and the value of a search.
#![tactic(auto)]

mod laws;
mod telling;
mod texts;
mod values;

pub use laws::schedules_are_told;
pub use telling::outcomes_of;
pub use texts::outcomes_text;
pub use values::{HaltEnd, HaltEnds, Outcomes, StuckRun, TrapEnd, TrapEnds};
