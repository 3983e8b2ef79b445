//! What a worker tells of while it works, which no contract sees.

/// What a worker tells of while it works. No contract sees an effect of it.
pub trait Pause {
    /// The worker with this number has found, and is about to settle.
    fn between(&self, worker: u32);

    /// An answer said that this limit was met: `sales`, `campaigns`, `conjunctions`, `values` or `text-bytes`.
    fn met(&self, limit: &[u8]);
}

/// No pause, and nobody is told.
#[derive(Clone, Copy)]
pub struct NoPause;

impl Pause for NoPause {
    fn between(&self, _: u32) {}

    fn met(&self, _: &[u8]) {}
}
