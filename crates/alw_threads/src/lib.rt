//! The command that runs a machine by workers on threads, a function from bytes to what it makes. It knows no stream and
//! no status.
#![tactic(auto)]

mod working;

pub use working::work_bytes;
