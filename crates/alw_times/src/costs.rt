/// What things cost, in cycles. An instruction costs `hit`, and `switch` more in another slot than the
/// last; a message holds the port for `send`, and `data` more with a line, and takes `hop` for each column
/// and row of its way; a delivery costs `home` at memory and `fill` at a cache; the handler works for
/// `trap` before it acts, and for `inv` for each message behind the first. After a BUSY a slot waits for a
/// number below `retry`, drawn from `seed`.
#[derive(Clone, Copy, Debug, PartialEq, Eq)]
pub struct Costs {
    pub hit: u16,
    pub switch: u16,
    pub hop: u16,
    pub send: u16,
    pub data: u16,
    pub home: u16,
    pub fill: u16,
    pub trap: u16,
    pub inv: u16,
    pub retry: u16,
    pub seed: u64,
}
