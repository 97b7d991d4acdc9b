//! Which main events of a machine are enabled within the limit: how many, and which is number k.
#![tactic(auto)]

mod changes;
mod laws;
mod ready;
mod renewals;
mod rows;
mod views;

pub use changes::{Happened, is_wide};
pub use laws::{other_nodes_are_left, own_deliveries_are_left, rows_say_what_may_happen};
pub use ready::Ready;
pub use rows::Row;
pub use views::View;
