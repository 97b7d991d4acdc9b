//! Images: a mesh's sizes, its code, its first data and its contexts' starts.
#![tactic(auto)]

mod checks;
mod faults;
mod headers;
mod images;
mod laws;
mod parameters;
mod parts;
mod ranges;
mod readers;
mod reading;
mod tables;
mod writing;

pub use faults::ImageErr;
pub use images::Image;
pub use laws::images_are_read;
pub use parameters::{FEW_POINTERS, MOST_LIMIT, MOST_POINTERS, Params, SET_COUNTS};
pub use parts::{Bodies, Code, LineList, Parts, Sizes, Starts};
pub use reading::read_image;
pub use writing::write_image;
