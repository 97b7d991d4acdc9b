use alw_image::{Image, Params};
use alw_msg::{Journal, Prints, Turns};

/// What a machine was started from, and what happened: its journal, the numbers of the contexts that
/// took turns, and the words that they printed.
#[derive(Drop)]
pub struct MachineParts {
    pub image: Image,
    pub params: Params,
    pub journal: Journal,
    pub turns: Turns,
    pub prints: Prints,
}
