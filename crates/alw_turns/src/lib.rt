//! What an instruction of a machine did, as text.
#![tactic(auto)]

mod pieces;
mod sights;
mod turns;

pub use turns::put_turn;
