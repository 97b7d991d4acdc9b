//! The source of an image is assembled to the image. The functions are laws with empty bodies: each clause is
//! a theorem over definitions.
#![tactic(auto)]

mod laws;

pub use laws::images_are_read_back;
