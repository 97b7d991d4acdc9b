//! Spellings: numbers and lines of text, and a text that grows by them.
#![tactic(auto)]

mod lines;
mod numbers;
mod pieces;
mod texts;

pub use lines::{Span, line_at};
pub use numbers::{decimal, digits, hex_value, hex32};
pub use pieces::{put_nodes, put_number};
pub use texts::{Spell, Text, digit_of};
