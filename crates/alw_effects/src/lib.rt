//! What a turn did, as text, from what stood before it and after it.
#![tactic(auto)]

mod accesses;
mod before;
mod changes;
mod effects;
mod outcomes;
mod pieces;

pub use before::SlotBefore;
pub use outcomes::put_effect;
pub use pieces::put_place;
