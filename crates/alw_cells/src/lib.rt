//! A node with its log, with what has come for it and what it has sent, for many threads to step.
#![tactic(auto)]

mod addressed;
mod agreement;
mod cells;
mod cursors;
mod laws;
mod lists;
mod logs;
mod parts;
mod records;
mod writing;

pub use agreement::links_agree;
pub use alw_model::Did;
pub use cells::{NodeCell, Stepped};
pub use cursors::Cursor;
pub use laws::cells_are_runs;
pub use logs::{Log, Logs};
pub use parts::{CellParts, DidLists, Worked};
