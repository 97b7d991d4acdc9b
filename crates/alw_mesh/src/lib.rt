//! The machine: all nodes of an image with the links between them, and the journal of what happened.
#![tactic(auto)]

mod ends;
mod errors;
mod joining;
mod joins;
mod machines;
mod meshes;
mod parts;
mod readers;
mod slots;
mod stepping;
mod values;
mod views;
mod walks;
mod watches;

pub use alw_tally::Moment;
pub use errors::{FitErr, MOST_STEPS, StepErr, fit};
pub use joins::JoinedParts;
pub use machines::Machine;
pub use parts::MachineParts;
pub use slots::Slot;
pub use watches::Watch;
