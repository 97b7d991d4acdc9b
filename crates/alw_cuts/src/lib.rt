//! The commands that carry the messages of a trace, cut it at a stamp, and go on from what is left there, each a
//! function from bytes to what it makes. They know no stream and no status.
#![tactic(auto)]

mod refusals;
mod resuming;
mod routing;
mod saving;

pub use resuming::resume;
pub use routing::route_bytes;
pub use saving::save_bytes;
