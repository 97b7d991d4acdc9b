//! A directory entry as hardware keeps it: its pointers, counted.
#![tactic(auto)]

mod entries;
mod pointers;

pub use entries::HomeEntry;
pub use pointers::Pointers;
