//! What texts in JSON (RFC 8259) share: values and members of objects, sets of nodes, and the parameters of a run.
#![tactic(auto)]

mod parts;
mod values;
mod writing;

pub use parts::{Nodes, ParamsObject, str_of};
pub use values::{ToJson, put, text_of};
pub use writing::Tokens;
