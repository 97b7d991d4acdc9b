use alw_model::Did;
use alw_msg::{Event, Kind};

/// What times depend on of an event that happened, beside what it sent: the slot of its node that could run
/// before it and the one that ran last, the kind of the message that it took, what it did, and which slots
/// of its node it made Ready.
#[derive(Clone, Copy, PartialEq, Eq)]
pub struct TimedMoment {
    pub event: Event,
    pub slot: Option<u8>,
    pub last: u8,
    pub taken: Option<Kind>,
    pub did: Did,
    pub woken: [bool; 4],
}

/// When an event started, and when it finished.
#[derive(Clone, Copy, Debug, PartialEq, Eq)]
pub struct Span {
    pub start: u64,
    pub finish: u64,
}
