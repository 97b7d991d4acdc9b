//! A LimitLESS directory acts as a full map does. The functions are laws with empty bodies: each
//! clause is a theorem over the definitions of the directory.
#![tactic(auto)]

mod laws;

pub use laws::{acts_as_full_map, handler_acts_as_full_map, hardware_acts_as_full_map};
