//! A run of the machine in which contexts take given turns, one after the other.
#![tactic(auto)]

mod errors;
mod serving;

pub use errors::{Hindrance, ServeErr};
pub use serving::{Served, serve};
