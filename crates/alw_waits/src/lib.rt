//! What a run's times tell: how long accesses, misses and messages waited, and what the cycles of each node went to.
#![tactic(auto)]

mod laws;
mod misses;
mod places;
mod requests;
mod totals;
mod waits;

pub use laws::waits_grow;
pub use misses::{Access, EndedBy};
pub use totals::{Spent, Total};
pub use waits::{Waited, Waits};
