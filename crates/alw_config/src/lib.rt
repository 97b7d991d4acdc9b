//! The command words: what the simulator is asked to do, or the first word that is refused.
#![tactic(auto)]

mod commands;
mod lookups;
mod options;
mod rows;
mod words;

pub use commands::{Asked, AsmForm, AuditForm, Command, Form, TimeForm, TimedForm, WordErr, Work};
pub use words::asked;
