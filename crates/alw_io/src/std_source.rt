ghost use Rattle.std.specs.Prelude.{◌≡◌, ◌-◌, ◌^◌, ◌≤◌};

use crate::outside::{Failed, Source};
use std::io::{ErrorKind, Read};

/// A source over a reader of std, as standard input. It tells the bytes that its reader tells, and a
/// standard stream tells none. The fault count rises at each error of the reader, also at one of a
/// signal, after which it reads again, and stays at its last value.
#[derive(Drop)]
pub struct StdSource<R: Read + Drop> {
    inner: R,
    faults: u64,
    ghost range: { faults ≤ 2 ^ 64 - 1 },
}

impl<R: Read + Drop> StdSource<R> {
    /// A source over a reader, with no fault so far.
    pub fn new(inner: R) -> StdSource<R>
        ensures left { ⟦<StdSource<R> as Source>⟧.left result ≡ R.remaining inner }
        ensures faults { ⟦<StdSource<R> as Source>⟧.faults result ≡ 0 }
    {
        StdSource { inner, faults: 0 }
    }
}

impl<R: Read + Drop> Source for StdSource<R> {
    ghost left = { λ s. R.remaining s.inner };

    ghost faults = { λ s. s.faults };

    fn read(&mut self, buf: &mut [u8]) -> Result<usize, Failed> {
        loop {
            match self.inner.read(buf) {
                Ok(count) => return Ok(count),
                Err(e) => {
                    self.faults = self.faults.saturating_add(1);
                    if e.kind() != ErrorKind::Interrupted || self.faults == u64::MAX {
                        return Err(Failed);
                    }
                }
            }
        }
    }
}
