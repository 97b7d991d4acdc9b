//! The instruction table: the words of the integer subset of SPARC V8 and what they mean.
#![tactic(auto)]

mod instructions;
mod laws;
mod outcomes;
mod registers;
mod words;

pub use instructions::{Instr, Operand};
pub use laws::{one_table, orderly_effects, orderly_turns};
pub use outcomes::{Need, Outcome};
pub use registers::Regs;
pub use words::{decode, encode};
