//! What a command makes, and what is told of it: outputs, causes, statuses and the line of a refusal.
#![tactic(auto)]

mod answers;
mod err_lines;
mod outputs;

pub use answers::{Cause, Done, InputErr, MOST_INPUT};
pub use err_lines::err_line;
pub use outputs::{Ending, Output, Refusal, ending_of};
