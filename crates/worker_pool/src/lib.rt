//! Many doors, each served by a worker in a thread of its own, over one exchange.
//!
//! Once all workers have returned their seats are joined, what is not durable is written, and the exchange is closed:
//! its history has the calls of all. `specs/Pools.antt` says what it has of each door.
#![tactic(auto)]

mod hiring;
mod jobs;
mod laws;
mod pool;

pub use laws::budgets_hold_at_each_place;
pub use pool::{Pool, PoolEnd, serve_doors};
