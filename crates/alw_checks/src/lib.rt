//! The commands that check without a machine, each a function from bytes to what it makes: the audit of a claim, and
//! the search of every order of turns of an image. They know no stream and no status.
#![tactic(auto)]

mod auditing;
mod searching;

pub use auditing::audit_bytes;
pub use searching::search_bytes;
