//! The software directory of a node: sets of nodes by line, in one fixed pool.
#![tactic(auto)]

mod places;
mod tables;

pub use tables::SoftDir;
