//! Workloads: images made from a number.
#![tactic(auto)]

mod operations;
mod workloads;

pub use workloads::{most_operations, workload};
