//! An image as a source of the assembler.
#![tactic(auto)]

mod sources;

pub use sources::source_of;
