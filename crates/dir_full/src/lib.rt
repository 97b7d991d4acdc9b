//! A full-map directory: an entry that keeps all its pointers in one set.
#![tactic(auto)]

mod entries;
mod sets;

pub use entries::FullMap;
pub use sets::{invalidate, sole_member};
