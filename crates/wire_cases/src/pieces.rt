//! A link whose bytes come in pieces.
ghost use Rattle.std.specs.Prelude.{None};

use link_door::{Link, MemLink};
use rtb_num::Failed;

/// Up to so many bytes, a read gives up to them; behind them all, or one byte at a time.
#[derive(Drop)]
pub struct Pieces {
    pub inner: MemLink,
    pub first: usize,
    pub single: bool,
}

impl Link for Pieces {
    ghost left = { λ _. None };

    ghost sent = { λ _. None };

    ghost faults = { λ p. p.inner.calls.faults };

    fn read(&mut self, out: &mut [u8], inside: bool) -> Result<usize, Failed> {
        let most = if self.single {
            1
        } else if self.first > 0 {
            self.first
        } else {
            out.len()
        };
        let room = out.len().min(most);
        let n = self.inner.read(&mut out[..room], inside)?;
        self.first = self.first.saturating_sub(n);
        Ok(n)
    }

    fn write(&mut self, bytes: &[u8]) -> Result<usize, Failed> {
        self.inner.write(bytes)
    }
}
