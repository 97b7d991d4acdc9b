//! Messages of the coherence protocol, events of the machine and lists of them.
#![tactic(auto)]

mod contexts;
mod events;
mod messages;
mod sends;
mod turns;

pub use contexts::Status;
pub use events::{Entry, Event, Journal, Prints, Words};
pub use messages::{Kind, Msg, MsgList};
pub use sends::Sends;
pub use turns::{Stretches, Turns, stretches, stretches_are_longest};
