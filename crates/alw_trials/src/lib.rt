//! Tests of the crates below by calls that no command shows.
#![tactic(auto)]

#[cfg(test)]
mod cells;
#[cfg(test)]
mod images;
#[cfg(test)]
mod links;
#[cfg(test)]
mod merges;
#[cfg(test)]
mod nodes;
#[cfg(test)]
mod outside;
#[cfg(test)]
mod plays;
#[cfg(test)]
mod runs;
#[cfg(test)]
mod views;
#[cfg(test)]
mod workers;
