//! What a seat takes before it draws a ticket, so that whoever runs goes first.
//!
//! Tickets are served in order, also where the seat that is next has no processor: all others would
//! wait for it. So a seat draws its ticket only with the latch, and finds it served; who waits, waits
//! for the latch, which any seat may take that runs. The latch is a hint: contracts say nothing of it,
//! and a seat looks at the lock's own words all the same.
use std::hint::spin_loop;
use std::sync::Wait;
use std::sync::atomic::AtomicU64;
use std::sync::atomic::Ordering::SeqCst;

// What the word says: free, taken, and taken while a seat may be parked on it.
const FREE: u64 = 0;

const TAKEN: u64 = 1;

const PARKED: u64 = 2;

// How often a seat pauses before it parks, which takes 7 to 50 microseconds as the processor's kind is, and how often it
// looks before each pause. A turn takes a few microseconds, and who parks is back after some fifty.
const PAUSES: u32 = 1_000;

const LOOKS: u32 = 8;

/// The latch of a lock, alone on its cache lines.
#[derive(Drop)]
pub(crate) struct Latch {
    _before: [u64; 15],
    word: AtomicU64,
    _behind: [u64; 15],
}

impl Latch {
    /// It is free.
    pub(crate) fn new() -> Latch {
        Latch {
            _before: [0; 15],
            word: AtomicU64::new(FREE),
            _behind: [0; 15],
        }
    }

    /// Waits until the latch is free, and takes it.
    ///
    /// A seat parks only where it left the word at `PARKED`, and takes it behind that with this word
    /// too, since others may be parked still. So while any is parked, the word is `PARKED`, or a seat
    /// that was woken is on its way, which leaves it so.
    pub(crate) fn take<R: Wait>(&self, rt: &R) {
        if self.watch(TAKEN) {
            return;
        }
        for _ in rt.forever() {
            if self.word.swap(PARKED, SeqCst) == FREE {
                return;
            }
            self.word.park(rt, PARKED as u32);
            if self.watch(PARKED) {
                return;
            }
        }
    }

    /// Frees it, and wakes one seat where any may be parked.
    pub(crate) fn free(&self) {
        if self.word.swap(FREE, SeqCst) == PARKED {
            self.word.wake_one();
        }
    }

    // Watches for a while, and whether the latch was taken with that word.
    fn watch(&self, word: u64) -> bool {
        for _ in 0..PAUSES {
            if self.is_seen_free() && self.is_taken(word) {
                return true;
            }
            spin_loop();
        }
        false
    }

    // Whether one of some looks finds it free.
    fn is_seen_free(&self) -> bool {
        for _ in 0..LOOKS {
            if self.word.load(SeqCst) == FREE {
                return true;
            }
        }
        false
    }

    fn is_taken(&self, word: u64) -> bool {
        let taken = self.word.compare_exchange(FREE, word, SeqCst, SeqCst);
        taken.is_ok()
    }
}
