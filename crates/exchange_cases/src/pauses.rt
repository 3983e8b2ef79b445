//! What workers do between the find and the sale of an auction.
use link_door::Pause;
use std::sync::atomic::AtomicU64;
use std::sync::atomic::Ordering::SeqCst;
use std::thread::yield_now;

// So many turns a worker waits at most, and then goes on.
const TURNS: u32 = 10_000_000;

/// Where workers are held, the first has one auction and the second two: the first is held between its find and its sale
/// until the second comes to its last auction, and the second's first auction waits for the first worker's.
#[derive(Drop)]
pub struct Holding {
    is_held: bool,
    // That the first has found; how often the second has; and that the second has for the last time.
    arrived: AtomicU64,
    found: AtomicU64,
    released: AtomicU64,
}

impl Holding {
    /// A pause that holds workers, or none.
    pub fn new(is_held: bool) -> Holding {
        Holding {
            is_held,
            arrived: AtomicU64::new(0),
            found: AtomicU64::new(0),
            released: AtomicU64::new(0),
        }
    }
}

impl Pause for Holding {
    fn between(&self, worker: u32) {
        if !self.is_held {
            return;
        }
        if worker == 0 {
            self.arrived.store(1, SeqCst);
            wait_for(&self.released);
        } else if self.found.fetch_add(1, SeqCst) == 0 {
            wait_for(&self.arrived);
        } else {
            self.released.store(1, SeqCst);
        }
    }

    fn met(&self, _: &[u8]) {}
}

fn wait_for(word: &AtomicU64) {
    for _ in 0..TURNS {
        if word.load(SeqCst) == 1 {
            return;
        }
        yield_now();
    }
}
