ghost use Rattle.std.specs.Prelude.{◌≡◌, ◌<◌, ◌≤◌, ◌-◌, ◌*◌, ◌/◌, ◌%◌, ◌^◌, ◌↔◌, IsNone, IfSome};
ghost use Rattle.alw_num.specs.Lanes.{bytes_in, bytes_of, line_from, lane_of, with_lane_of, IsAligned};

/// The first address of shared data. Code lies below it.
pub const SHARED_BASE: u32 = 0x4000_0000;

/// The bytes of a line.
pub const LINE_BYTES: u32 = 16;

/// The most columns of a mesh, and the most rows.
pub const MOST_SIDE: u8 = 16;

/// The most lines of shared data of a machine.
pub const MOST_LINES: u32 = 1_048_576;

/// The number of a line of shared data, below `MOST_LINES`. Line n holds the `LINE_BYTES` bytes from
/// `SHARED_BASE` + `LINE_BYTES` * n.
#[derive(Clone, Copy, Debug, PartialEq, Eq)]
pub struct LineNo(pub u32);

/// The number of a node, below `MOST_NODES`. Node n stands at column n mod w, row n / w of a mesh
/// of width w.
#[derive(Clone, Copy, Debug, PartialEq, Eq)]
pub struct NodeNo(pub u16);

/// The 16 bytes of a line, as four big-endian words in the order of their addresses.
#[derive(Clone, Copy, Debug, PartialEq, Eq)]
pub struct Line {
    pub a: u32,
    pub b: u32,
    pub c: u32,
    pub d: u32,
}

impl Line {
    /// The line of 16 zero bytes.
    pub const ZERO: Line = Line {
        a: 0,
        b: 0,
        c: 0,
        d: 0,
    };
}

/// The width of an access: 1, 2 or 4 bytes.
#[derive(Clone, Copy, Debug, PartialEq, Eq)]
pub enum Width {
    Byte,
    Half,
    Word,
}

impl Width {
    /// How many bytes an access of this width takes.
    pub fn bytes(self) -> u32
        ensures bytes { result ≡ bytes_in self }
        ensures few { result ≤ 4 }
    {
        match self {
            Width::Byte => 1,
            Width::Half => 2,
            Width::Word => 4,
        }
    }
}

/// The line that an address lies in. None below shared data.
pub fn line_of(addr: u32) -> Option<LineNo>
    ensures none { IsNone result ↔ (addr < SHARED_BASE) }
    ensures line { IfSome result (λ line. line.0 ≡ (addr - SHARED_BASE) / LINE_BYTES) }
{
    let offset = addr.checked_sub(SHARED_BASE)?;
    Some(LineNo(offset / LINE_BYTES))
}

/// The node that keeps a line in its memory, where each node has `per_node` lines.
pub fn home_of(line: LineNo, per_node: u32) -> NodeNo
    requires some { 1 ≤ per_node }
    requires within { line.0 / per_node < 65536 }
    ensures { result.0 ≡ line.0 / per_node }
{
    NodeNo((line.0 / per_node) as u16)
}

// The bytes of a line, lowest address first.
fn bytes_of_line(line: &Line) -> [u8; 16]
    ensures { result ≡ bytes_of line.now }
{
    let [a0, a1, a2, a3] = line.a.to_be_bytes();
    let [b0, b1, b2, b3] = line.b.to_be_bytes();
    let [c0, c1, c2, c3] = line.c.to_be_bytes();
    let [d0, d1, d2, d3] = line.d.to_be_bytes();
    [
        a0, a1, a2, a3, b0, b1, b2, b3, c0, c1, c2, c3, d0, d1, d2, d3,
    ]
}

// The line of 16 bytes.
fn line_from_bytes(bytes: &[u8; 16]) -> Line
    ensures { result ≡ line_from bytes.now }
{
    Line {
        a: u32::from_be_bytes([bytes[0], bytes[1], bytes[2], bytes[3]]),
        b: u32::from_be_bytes([bytes[4], bytes[5], bytes[6], bytes[7]]),
        c: u32::from_be_bytes([bytes[8], bytes[9], bytes[10], bytes[11]]),
        d: u32::from_be_bytes([bytes[12], bytes[13], bytes[14], bytes[15]]),
    }
}

/// The unsigned big-endian number in the bytes of a line from `offset` on.
pub fn lane(line: &Line, offset: u32, width: Width) -> u32
    requires within { offset < LINE_BYTES }
    requires aligned { IsAligned width offset }
    ensures { result ≡ lane_of line.now offset width }
{
    let bytes = bytes_of_line(line);
    let at = offset as usize;
    match width {
        Width::Byte => u32::from(bytes[at]),
        Width::Half => u32::from(u16::from_be_bytes([bytes[at], bytes[at + 1]])),
        Width::Word => {
            u32::from_be_bytes([bytes[at], bytes[at + 1], bytes[at + 2], bytes[at + 3]])
        }
    }
}

/// The line with the low bytes of `value` written big-endian from `offset` on.
pub fn with_lane(line: &Line, offset: u32, width: Width, value: u32) -> Line
    requires within { offset < LINE_BYTES }
    requires aligned { IsAligned width offset }
    ensures { result ≡ with_lane_of line.now offset width value }
{
    let mut bytes = bytes_of_line(line);
    let at = offset as usize;
    let [first, second, third, fourth] = value.to_be_bytes();
    match width {
        Width::Byte => bytes[at] = fourth,
        Width::Half => {
            bytes[at] = third;
            bytes[at + 1] = fourth;
        }
        Width::Word => {
            bytes[at] = first;
            bytes[at + 1] = second;
            bytes[at + 2] = third;
            bytes[at + 3] = fourth;
        }
    }
    line_from_bytes(&bytes)
}
