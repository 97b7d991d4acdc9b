//! The contexts of a node: registers, status and hold of each slot, and which slot runs.
#![tactic(auto)]

mod contexts;
mod residents;
mod starts;

pub use alw_msg::Status;
pub use contexts::Contexts;
