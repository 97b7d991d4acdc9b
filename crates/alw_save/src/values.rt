use alw_msg::Journal;

/// A legal journal cut at a stamp: the entries with at most this stamp, and the others, both in order
/// (a consistent cut, Lamport 1978).
#[derive(Drop)]
pub struct Cut {
    pub kept: Journal,
    pub rest: Journal,
}
