//! The processor side of a node: contexts, cache and open transactions.
#![tactic(auto)]

mod changes;
mod homeward;
mod openings;
mod processors;
mod shared;

pub use processors::Proc;
