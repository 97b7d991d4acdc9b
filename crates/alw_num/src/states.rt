/// What a transaction asks for, and what a copy grants: to read, or to read and write.
#[derive(Clone, Copy, Debug, PartialEq, Eq)]
pub enum Mode {
    Read,
    Write,
}

/// The state of a home's entry: Read-Only, Read-Write, Read-Transaction or Write-Transaction
/// (Chaiken, Kubiatowicz and Agarwal, ASPLOS 1991).
#[derive(Clone, Copy, Debug, PartialEq, Eq)]
pub enum State {
    RO,
    RW,
    RT,
    WT,
}

/// The meta state of a home's entry, by which hardware and software share it: Normal,
/// Trans-In-Progress, Trap-On-Write or Trap-Always (ASPLOS 1991).
#[derive(Clone, Copy, Debug, PartialEq, Eq)]
pub enum Meta {
    Normal,
    Progress,
    TrapWrite,
    TrapAlways,
}
