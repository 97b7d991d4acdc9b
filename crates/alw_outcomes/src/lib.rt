//! What an image can come to, whatever the schedule: every order of turns on one memory, searched.
#![tactic(auto)]

mod digests;
mod endings;
mod explored;
mod hints;
mod laws;
mod leads;
mod places;
mod pooled;
mod pools;
mod remembered;
mod stuck;
mod tables;

pub use endings::{Endings, endings_of};
pub use explored::{Explored, Origin, Trapped, turns_to};
pub use hints::explore;
pub use laws::different_endings_are_one;
pub use places::{memory_at, words_at};
pub use stuck::{Stuck, stuck_of};
