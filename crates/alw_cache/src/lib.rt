//! The cache of a node: direct-mapped, one copy for each set.
#![tactic(auto)]

mod caches;
mod places;

pub use caches::Cache;
pub use places::Evicted;
