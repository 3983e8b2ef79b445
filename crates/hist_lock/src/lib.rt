//! A lock whose history only grows.
//!
//! A value lies under the lock, and contracts see beside it the list of all that the workers did
//! to it, which is never stored. Each worker has a `Seat`; a seat that has entered has the turn
//! and the value, and when it leaves the list may have one entry more. When all seats are joined
//! again, `HistLock::close` gives the value and a `Past`, the whole list: one history from which
//! the value follows, with each worker's entries in their order.
//!
//! `docs/CONCURRENCY.md` has the steps, and what is not promised. No clause says that `enter`
//! returns.
#![tactic(auto)]

mod latch;
mod lock;
mod plays;
mod steps;
mod view;

pub use lock::{HistLock, Past, Seat, Turn};
pub use view::{Names, Stands, Starts};
