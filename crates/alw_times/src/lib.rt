//! Times of a run in cycles: when each event starts and finishes, when the processor, the controller and
//! the port of a node are free, when messages arrive, packets come and slots are woken.
#![tactic(auto)]

mod charges;
mod clocks;
mod costs;
mod happenings;
mod laws;
mod leaving;
mod places;
mod queues;
mod starting;
mod turning;

pub use clocks::Clocks;
pub use costs::Costs;
pub use happenings::{Span, TimedMoment};
pub use laws::{one_thing_at_a_time, starts_rise, times_grow};
