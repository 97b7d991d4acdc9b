//! The text of a machine's state tells the state, since the machine's words are below 2^32 after every
//! legal journal. The functions are laws with empty bodies: each clause is a theorem over definitions.
#![tactic(auto)]

mod text_laws;
mod word_laws;

pub use text_laws::texts_tell_states;
pub use word_laws::machines_have_words;
