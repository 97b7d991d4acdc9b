use alw_memory::HomeView;
use alw_msg::Msg;
use alw_num::{Line, LineNo, Mode, NodeNo, Sequence};

/// The copies of a line in caches: of each its node, what it grants, and its bytes.
pub type Copies = Sequence<(NodeNo, Mode, Line)>;

/// The open transactions on a line: of each its node and its mode.
pub type Pending = Sequence<(NodeNo, Mode)>;

/// Messages on links: of each the node that sent it, the node that it goes to, and the message. Those
/// of one link stand in link order, the next to be delivered first (Lamport 1978).
pub type LinkMsgs = Sequence<(NodeNo, NodeNo, Msg)>;

/// What a machine has of one line: the line, the node of its home, the home's entry (ASPLOS 1991,
/// section 4), and each node's copy, transaction and messages; and the packet of the line that waits
/// for the trap handler.
#[derive(Drop)]
pub struct LineView {
    pub line: LineNo,
    pub at: NodeNo,
    pub home: HomeView,
    pub copies: Copies,
    pub transactions: Pending,
    pub links: LinkMsgs,
    pub packet: Option<Msg>,
}
