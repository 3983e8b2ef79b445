//! The journal: blocks of bytes on a disk, each there whole or not at all after a crash.
//!
//! `docs/FORMATS.md` has the file byte by byte. `specs/Blocks.antt` says which payloads a file stands for,
//! `specs/Damage.antt` where a file is damaged, and `specs/Standing.antt`, `specs/Readings.antt` and
//! `specs/Compaction.antt` what is known of a journal, a reading and a file that is written whole.
#![tactic(auto)]

mod ahead;
mod at_gates;
mod blocks;
mod compaction;
mod creation;
mod faults;
mod finishing;
mod journal;
mod laws;
mod opening;
mod payloads;
mod piece;
mod reading;
mod steps;

pub use at_gates::block_at;
pub use compaction::Compact;
pub use faults::{CompactFault, DiskFailed, JournalFault};
pub use journal::Journal;
pub use laws::image_stands_for_one_list;
pub use reading::Reading;
