//! One node of the machine: its contexts and cache, its home lines, and its clock.
#![tactic(auto)]

mod laws;
mod lists;
mod nodes;
mod shares;

pub use alw_memory::HomeView;
pub use laws::shares_are_enough;
pub use lists::{Dids, Nodes};
pub use nodes::Node;
pub use shares::Share;
pub use sparc_exec::Program;
