//! The assembler's third pass, and the whole: from a source to its image, with the source line of each code word.
#![tactic(auto)]

mod addresses;
mod assembling;
mod data;
mod fillings;
mod images;
mod memory;
mod refusals;

pub use assembling::{Assembled, assemble};
