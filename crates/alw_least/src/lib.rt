//! Numbers by place, and the first place of the least of them.
#![tactic(auto)]

mod days;
mod leasts;

pub use leasts::Leasts;
