//! Where conversations come from: links, over which bytes are received and sent, and doors, through
//! which links come.
//!
//! Each has a form in memory, of which contracts tell what it holds, and a real form over the network,
//! of which they tell the count of faults alone.
#![tactic(auto)]

mod asked;
mod door;
mod entrance;
mod link;
mod memory_door;
mod memory_link;
mod memory_world;
mod os_world;
mod pause;
mod tcp;
mod world;

pub use asked::Asked;
pub use door::Door;
pub use link::Link;
pub use memory_door::MemDoor;
pub use memory_link::MemLink;
pub use memory_world::MemWorld;
pub use os_world::OsWorld;
pub use pause::{NoPause, Pause};
pub use tcp::{TcpDoor, TcpLink};
pub use world::{World, WorldFault};
