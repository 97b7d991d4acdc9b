//! What a profile's rows count together. The function is a law with an empty body: its clause is a theorem over
//! definitions.
#![tactic(auto)]

mod laws;

pub use laws::sums_are_counts;
