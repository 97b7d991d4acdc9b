//! The events of a trace taken again, up to the first that isn't the next.
#![tactic(auto)]

mod replays;

pub use replays::{Replayed, replay, take, take_all};
