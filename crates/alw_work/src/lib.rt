//! Workers: threads that step the nodes of a machine, each node behind a lock of its own, and the logs
//! that they leave.
#![tactic(auto)]

mod cells;
mod closing;
mod ends;
mod gates;
mod laying;
mod moves;
mod paces;
mod ready;
mod runs;
mod seats;
mod signs;
mod spares;
mod workers;

pub use gates::{Gate, OpenGate};
pub use ready::{Counting, Filler, Ready, ReadyPass};
pub use runs::run_workers;
