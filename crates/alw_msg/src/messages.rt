ghost use Rattle.std.specs.Prelude.{◌≡◌, ◌<◌};
ghost use Rattle.alw_msg.specs.Kinds.{to_memory, has_body, kind_number};

use alw_num::{Line, LineNo, NodeNo, Sequence};

/// The kinds of message. To memory go RREQ, WREQ, REPM, UPDATE and ACKC; to a cache go RDATA,
/// WDATA, INV and BUSY (ASPLOS 1991, table of protocol messages).
#[derive(Clone, Copy, Debug, PartialEq, Eq)]
pub enum Kind {
    RREQ,
    WREQ,
    REPM,
    UPDATE,
    ACKC,
    RDATA,
    WDATA,
    INV,
    BUSY,
}

impl Kind {
    /// A message of this kind goes to memory, and not to a cache.
    pub fn is_to_memory(self) -> bool
        ensures { result ≡ to_memory self }
    {
        matches!(
            self,
            Kind::RREQ | Kind::WREQ | Kind::REPM | Kind::UPDATE | Kind::ACKC
        )
    }

    /// A message of this kind carries the line.
    pub fn carries_body(self) -> bool
        ensures { result ≡ has_body self }
    {
        matches!(self, Kind::REPM | Kind::UPDATE | Kind::RDATA | Kind::WDATA)
    }

    /// The kinds' numbers, in the order of their names.
    pub fn number(self) -> u8
        ensures number { result ≡ kind_number self }
        ensures few { result < 9 }
    {
        match self {
            Kind::RREQ => 0,
            Kind::WREQ => 1,
            Kind::REPM => 2,
            Kind::UPDATE => 3,
            Kind::ACKC => 4,
            Kind::RDATA => 5,
            Kind::WDATA => 6,
            Kind::INV => 7,
            Kind::BUSY => 8,
        }
    }
}

/// A message on a link: its kind, the line that it is about, the node that sent it, the stamp of
/// the event that sent it, and the line's bytes, which are zero for kinds that carry none.
#[derive(Clone, Copy, Debug, PartialEq, Eq)]
pub struct Msg {
    pub kind: Kind,
    pub line: LineNo,
    pub src: NodeNo,
    pub stamp: u32,
    pub body: Line,
}

/// Messages in order, those of a link or of a pair of nodes.
pub type MsgList = Sequence<Msg>;
