//! The links of the machine: one for each ordered pair of nodes, first in, first out.
#![tactic(auto)]

mod iters;
mod links;
mod pools;

pub use iters::Link;
pub use links::Links;
