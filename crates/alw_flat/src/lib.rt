//! The flat machine: contexts that take turns on one memory.
#![tactic(auto)]

mod machines;
mod memory;

pub use machines::Flat;
pub use memory::Memory;
