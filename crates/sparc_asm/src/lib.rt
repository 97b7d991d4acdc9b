//! The assembler: from a source to its lines, and from a statement to its instructions.
#![tactic(auto)]

mod encoding;
mod expressions;
mod faults;
mod lexemes;
mod mnemonics;
mod names;
mod operands;
mod parse;
mod sources;
mod statements;
mod values;

pub use encoding::{Coded, encode, instr_word};
pub use faults::{AsmErr, Fault};
pub use names::{Name, Names, Value};
pub use sources::read_source;
pub use statements::{Address, Expression, Line, Lines, Signed, Source, Statement, Term};
pub use values::{Sum, value_of};
