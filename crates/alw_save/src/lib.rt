//! Checkpoints: a trace cut at a stamp with the state there, and the machine that it leaves.
#![tactic(auto)]

mod contexts;
mod cuts;
mod differences;
mod faults;
mod maps;
mod memory;
mod messages;
mod pieces;
mod restores;
mod saves;
mod states;
mod values;

pub use cuts::{cut, machine_at, machine_of};
pub use faults::{CutErr, RestoreErr};
pub use restores::restore;
pub use saves::{checkpoint, save};
pub use values::Cut;
