//! The command `schedule`, a function from bytes to what it makes: the trace of a run in which contexts take the turns
//! of a claim. It knows no stream and no status.
#![tactic(auto)]

mod scheduling;

pub use scheduling::schedule_bytes;
