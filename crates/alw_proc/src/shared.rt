ghost use Rattle.std.specs.Prelude.{None};

use alw_cache::Cache;
use alw_num::{Line, LineNo, Mode};
use sparc_exec::Port;

/// What a node reaches of shared data: the copies in its cache, of so many lines. Each instruction runs
/// on the cache itself.
#[derive(Drop)]
pub struct Shared {
    pub cache: Cache,
    pub lines: u32,
}

impl Port for Shared {
    ghost use Rattle.alw_cache.specs.Places.{seen_in};

    ghost copy = { λ s. seen_in s.cache };

    ghost lines = { λ s. s.lines };

    ghost places = { λ s. s.cache.sets };

    ghost calls = { λ _. None };

    fn lines(&self) -> u32 {
        self.lines
    }

    #[inline(always)]
    fn grab(&mut self, line: LineNo, mode: Mode) -> Option<Line> {
        match (self.cache.look(line)?, mode) {
            ((Mode::Read, _), Mode::Write) => None,
            ((_, value), _) => Some(value),
        }
    }

    fn put(&mut self, line: LineNo, value: Line) {
        self.cache.write(line, value);
    }
}
