ghost use Rattle.std.specs.Prelude.{◌≡◌};
ghost use Rattle.alw_waits.specs.Waits.{mode_place, end_place, wait_place, is_request, is_answer};

use alw_msg::Kind;
use alw_num::{LineNo, Mode};

/// A line, and what a context wants it for.
#[derive(Clone, Copy, Debug, PartialEq, Eq)]
pub struct Access {
    pub line: LineNo,
    pub mode: Mode,
}

/// What a context waits for, and when it missed.
#[derive(Clone, Copy, Debug, PartialEq, Eq)]
pub struct Miss {
    pub since: u64,
    pub access: Access,
}

/// What ended a miss: hardware alone, the handler, or a BUSY.
#[derive(Clone, Copy, Debug, PartialEq, Eq)]
pub enum EndedBy {
    Hardware,
    Handler,
    Refusal,
}

/// The place of a miss among twelve, by home, mode and end.
pub fn wait_place(is_here: bool, mode: Mode, ended: EndedBy) -> usize
    ensures { result ≡ wait_place is_here mode ended }
{
    let home = if is_here { 0 } else { 6 };
    home + (mode_place(mode) + end_place(ended))
}

fn mode_place(mode: Mode) -> usize
    ensures { result ≡ mode_place mode }
{
    match mode {
        Mode::Read => 0,
        Mode::Write => 3,
    }
}

fn end_place(ended: EndedBy) -> usize
    ensures { result ≡ end_place ended }
{
    match ended {
        EndedBy::Hardware => 0,
        EndedBy::Handler => 1,
        EndedBy::Refusal => 2,
    }
}

/// A request of a line.
pub fn is_request(kind: Kind) -> bool
    ensures { result ≡ is_request kind }
{
    matches!(kind, Kind::RREQ | Kind::WREQ)
}

/// What answers a request.
pub fn is_answer(kind: Kind) -> bool
    ensures { result ≡ is_answer kind }
{
    matches!(kind, Kind::RDATA | Kind::WDATA | Kind::BUSY)
}
