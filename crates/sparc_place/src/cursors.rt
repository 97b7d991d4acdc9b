ghost use Rattle.std.specs.Prelude.{◌≡◌, ◌≤◌, ◌+◌, ◌*◌, if◌then◌else◌};

use alw_num::Sequence;

/// Where the next line stands.
#[derive(Clone, Copy)]
pub struct Cursor {
    pub in_data: bool,
    /// Code words so far.
    pub code: u32,
    /// The place in shared data, in bytes from its first.
    pub shared: u32,
    pub ghost code_fits: { code ≤ 65536 },
    pub ghost shared_fits: { shared ≤ 16777216 },
}

impl Cursor {
    /// Before the first line.
    pub const START: Cursor = Cursor {
        in_data: false,
        code: 0,
        shared: 0,
    };

    /// The address at which the next line stands.
    pub fn here(&self) -> u32
        ensures { result ≡ (if self.now.in_data then 0x40000000 + self.now.shared else 4 * self.now.code) }
    {
        if self.in_data {
            0x4000_0000 + self.shared
        } else {
            4 * self.code
        }
    }
}

/// Where a line stands, and the context that it starts: node 0 and slot 0 where it starts none.
#[derive(Clone, Copy, PartialEq, Eq)]
pub struct Position {
    /// The address of its first byte.
    pub here: u32,
    pub in_data: bool,
    pub node: u16,
    pub slot: u8,
}

/// The places of lines, in order.
pub type Places = Sequence<Position>;
