//! The trap handler: it acts on a packet with the hardware pointers and the software set together.
#![tactic(auto)]

mod handlers;

pub use handlers::handle;
