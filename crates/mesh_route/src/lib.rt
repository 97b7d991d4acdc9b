//! Messages hop by hop through a mesh of routers: along the row to the right column, and then along that column.
#![tactic(auto)]

mod hops;
mod laws;
mod ports;
mod queues;
mod routes;

pub use hops::{HopErr, Hops};
pub use laws::{idle_routers_have_delivered, routers_keep_order};
pub use ports::{Hop, Port};
pub use routes::route_next;
