ghost use Rattle.std.specs.Prelude.{◌≡◌};
ghost use Rattle.alw_msg.specs.Statuses.{is_ready};

use alw_num::LineNo;

/// What a context does: it can run, waits until its node's transaction on a line ends, has halted,
/// or has trapped at `pc` with the trap type `tt` (SPARC V8 manual, chapter 7).
#[derive(Clone, Copy, Debug, PartialEq, Eq)]
pub enum Status {
    Ready,
    Waiting { line: LineNo },
    Halted,
    Trapped { pc: u32, tt: u8 },
}

impl Status {
    /// The context can run.
    pub fn is_ready(&self) -> bool
        ensures { result ≡ is_ready self.now }
    {
        matches!(self, Status::Ready)
    }
}
