//! The log of a run tells the run: its journal, and what its first and last lines say. The functions are laws with empty bodies: each clause is a
//! theorem over definitions.
#![tactic(auto)]

mod log_laws;

pub use log_laws::{lines_tell_entries, logs_tell_journals, logs_tell_sizes_and_ends};
