//! Traces and claims: a run written down, and what it says, to be checked without the machine.
#![tactic(auto)]

mod claim_lines;
mod claim_ranges;
mod claim_reading;
mod entries;
mod faults;
mod fronts;
mod image_lines;
mod images;
mod laws;
mod lines;
mod pairs;
mod ranges;
mod raw;
mod readers;
mod reading;
mod trace_lines;
mod values;
mod writing;

pub use claim_reading::read_claim;
pub use entries::put_event;
pub use faults::TextErr;
pub use fronts::{Front, put_front, read_front};
pub use laws::{claims_are_read_back, traces_are_read_back};
pub use reading::read_trace;
pub use values::{Claim, Trace};
pub use writing::{write_claim, write_trace};
