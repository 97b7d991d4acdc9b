//! Laws of times over journals: no finish is later than a number of cycles for each stamp, what a node
//! spent is no more than the cycles of a run, and times are of the order at each node alone.
#![tactic(auto)]

mod order_laws;
mod stamp_laws;
mod sum_laws;

pub use order_laws::{times_are_of_each_node, waits_are_of_each_node};
pub use stamp_laws::{finishes_are_priced, stamps_bound_unit_times};
pub use sum_laws::parts_sum_up;
