//! What a machine has of one line, as lists, and the line invariant as a program over them.
#![tactic(auto)]

mod carriers;
mod clauses;
mod inspections;
mod laws;
mod parts;
mod showing;
mod traffic;
mod views;

pub use inspections::inspect;
pub use laws::views_are_sound;
pub use showing::view;
pub use views::{Copies, LineView, LinkMsgs, Pending};
