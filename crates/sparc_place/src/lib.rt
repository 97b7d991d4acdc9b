//! The second pass of the assembler: from the lines of a source to the place of each, and to what its names stand for.
#![tactic(auto)]

mod cursors;
mod marks;
mod numbers;
mod passes;
mod plans;
mod sizes;
mod steps;

pub use cursors::{Places, Position};
pub use passes::{Laid, fault_at, lay_out};
pub use plans::Plan;
pub use sizes::Sizes;
