//! The memory side of a node: directory entries, software table and packets.
#![tactic(auto)]

mod memories;
mod views;

pub use memories::Memory;
pub use views::HomeView;
