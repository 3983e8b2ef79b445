//! Why a journal was not written anew.
ghost use Rattle.std.specs.Prelude.{◌≡◌};
ghost use Rattle.compaction.specs.declared.fault.WriteFault.TheVariants as write;

use journal_file::{DiskFailed, JournalFault};
use std::alloc::AllocError;
use thiserror::Error;

/// Why a journal was not written anew.
#[derive(Clone, Copy, Debug, Error)]
pub enum CompactionFault {
    /// The journal was not read, and nothing was done to the other file.
    #[error("the journal was not read")]
    NotRead(JournalFault),
    /// The other file is neither short nor one whose writing was not finished, and nothing was written to it.
    #[error("the file is not empty")]
    NotEmpty,
    /// A call of the other file's disk failed, and its count of faults rose.
    #[error("the file was not written")]
    WriteFailed,
    /// Memory was refused while the other file was written.
    #[error("memory ran out")]
    Memory,
}

/// Why a file that was begun was not finished.
#[derive(Clone, Copy, Debug, Error)]
pub(crate) enum WriteFault {
    /// A call of the disk failed, and its count of faults rose.
    #[error("the disk failed")]
    DiskFailed,
    /// Memory was refused.
    #[error("memory ran out")]
    Memory,
}

impl From<DiskFailed> for WriteFault {
    ghost from_gives = { λ _ e. e ≡ write.DiskFailed };

    fn from(_: DiskFailed) -> WriteFault {
        WriteFault::DiskFailed
    }
}

impl From<AllocError> for WriteFault {
    ghost from_gives = { λ _ e. e ≡ write.Memory };

    fn from(_: AllocError) -> WriteFault {
        WriteFault::Memory
    }
}
