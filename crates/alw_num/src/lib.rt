//! Numbers of the machine: lines, nodes and sets of nodes, states of a directory entry, lists of bytes.
#![tactic(auto)]

mod addresses;
mod byte_list;
mod divisors;
mod draws;
mod memory;
mod node_sets;
mod place_counts;
mod roomy;
mod sequences;
mod states;

pub use addresses::{
    LINE_BYTES, Line, LineNo, MOST_LINES, MOST_SIDE, NodeNo, SHARED_BASE, Width, home_of, lane,
    line_of, with_lane,
};
pub use byte_list::Bytes;
pub use divisors::Divisor;
pub use draws::Draws;
pub use memory::NoMemory;
pub use node_sets::{MOST_NODES, NodeSet};
pub use place_counts::PlaceCounts;
pub use roomy::Roomy;
pub use sequences::Sequence;
pub use states::{Meta, Mode, State};
