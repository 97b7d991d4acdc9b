use alw_image::{Image, Params};
use alw_msg::{Journal, Prints, Turns, Words};

/// A run as it was taken: the image, the parameters and the journal.
#[derive(Drop)]
pub struct Trace {
    pub image: Image,
    pub params: Params,
    pub journal: Journal,
}

/// What a run says of an image: which contexts took turns, in order, what they printed, and the words
/// of shared data that aren't 0 at the end. It can be checked on the flat machine alone.
#[derive(Drop)]
pub struct Claim {
    pub image: Image,
    /// The number of the context of each turn, in order.
    pub turns: Turns,
    /// The printed words, each with its context, in order.
    pub prints: Prints,
    /// The words of shared data that aren't 0 at the end, each with its address, by address.
    pub memory: Words,
}
