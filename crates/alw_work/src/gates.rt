/// What a worker passes before each visit of a node: up to 16 turns, each before up to 64 instructions in a
/// row, for which it locks the node once. It holds no lock then. It passes too where the node is then held
/// back. A gate may hold a worker back, so that a test can say which worker goes on first.
pub trait Gate: Sync {
    /// Worker number `worker` is about to visit node `node`.
    fn pass(&self, worker: u32, node: u32);
}

/// The gate that holds nobody back.
#[derive(Clone, Copy)]
pub struct OpenGate;

impl Gate for OpenGate {
    fn pass(&self, _worker: u32, _node: u32) {}
}
