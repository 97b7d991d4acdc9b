//! Places that turns on one memory lead to: what a turn does there, and the laws of orders of turns.
#![tactic(auto)]

mod classes;
mod laws;
mod turns;

pub use classes::{Broken, Class, class_at, is_shared, may_access};
pub use laws::{
    each_trap_is_told, local_turns_commute, private_turns_first, reduced_set_tells_all,
    turns_come_to,
};
pub use turns::{Left, contexts_of, has_trapped, left_by, lines_of, need, run};
