//! Words as statements of the assembly language.
#![tactic(auto)]

mod names;
mod operands;
mod statements;

pub use operands::put_register;
pub use statements::{is_store, put_statement, put_statement_at};
