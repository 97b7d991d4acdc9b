ghost use Rattle.std.specs.Prelude.{◌≡◌};
ghost use Rattle.std.specs.Option.{option_map};
ghost use Rattle.alw_cache.specs.Places.{evicted_of, held_at};

use alw_num::{Line, LineNo, Mode};

/// A copy that has left a cache.
#[derive(Clone, Copy, PartialEq, Eq)]
pub struct Evicted {
    pub line: LineNo,
    pub mode: Mode,
    pub body: Line,
}

/// What a set holds: the copy of a line, or nothing where there is no mode.
#[derive(Clone, Copy)]
pub struct SetCopy {
    pub line: u32,
    pub mode: Option<Mode>,
    pub body: Line,
}

impl SetCopy {
    /// A set that holds nothing.
    pub const EMPTY: SetCopy = SetCopy {
        line: 0,
        mode: None,
        body: Line::ZERO,
    };

    /// The copy that stands here.
    pub fn copy(&self) -> Option<Evicted>
        ensures { result ≡ option_map evicted_of (held_at self.now) }
    {
        let mode = self.mode?;
        Some(Evicted {
            line: LineNo(self.line),
            mode,
            body: self.body,
        })
    }
}
