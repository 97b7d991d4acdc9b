use alw_num::{Line, Meta, NodeSet, State};

/// What a home's entry shows: its state and meta state, the nodes that its hardware pointers and its
/// software set name, the answers that are still to come, and the line's bytes (ASPLOS 1991, section 4).
#[derive(Clone, Copy, PartialEq, Eq)]
pub struct HomeView {
    pub state: State,
    pub meta: Meta,
    pub hw: NodeSet,
    pub sw: NodeSet,
    pub acks: u32,
    pub body: Line,
}
