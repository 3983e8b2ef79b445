//! Disks that may fail and that a crash may cut short: one in memory, and a file of the system.
//!
//! `specs/Stores.antt` says what a disk is to a contract: what a read gives, and what a crash may leave
//! of it at each moment. `specs/Record.antt` and `specs/Memory.antt` say what a disk in memory does.
#![tactic(auto)]

mod bytes;
mod calls;
mod disk;
mod file;
mod known;
mod log;
mod memory;
mod notices;
mod opening;

pub use calls::{Call, Made};
pub use disk::{Disk, parts_len};
pub use file::FileDisk;
pub use memory::MemDisk;
