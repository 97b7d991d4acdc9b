//! The commands that make images and sources, each a function from bytes to what it makes. They know no stream and
//! no status.
#![tactic(auto)]

mod assembling;
mod listings;
mod making;
mod reading_back;

pub use assembling::assemble_source;
pub use making::make_workload;
pub use reading_back::read_back;
