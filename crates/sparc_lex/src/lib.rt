//! Tokens of assembly sources.
#![tactic(auto)]

mod characters;
mod cut;
mod kinds;
mod lists;

pub use cut::{line_tokens, tokens};
pub use kinds::{LexErr, Token, TokenKind, Tokens};
pub use lists::clear;
