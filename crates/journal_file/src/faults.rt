//! Why a journal was not read, written or created.
ghost use Rattle.std.specs.Prelude.{◌≡◌};
ghost use Rattle.journal_file.specs.declared.faults.JournalFault.TheVariants as fault;

use rtb_num::Failed;
use std::alloc::AllocError;
use thiserror::Error;

/// Why a journal was not read.
#[derive(Clone, Copy, Debug, Error)]
pub enum JournalFault {
    /// A call of the disk failed, and its count of faults rose.
    #[error("the disk failed")]
    DiskFailed,
    /// The file is no journal from this place on.
    #[error("damaged")]
    Damaged { at: u64 },
    /// Memory was refused.
    #[error("memory ran out")]
    Memory,
}

impl From<Failed> for JournalFault {
    ghost from_gives = { λ _ e. e ≡ fault.DiskFailed };

    fn from(_: Failed) -> JournalFault {
        JournalFault::DiskFailed
    }
}

impl From<AllocError> for JournalFault {
    ghost from_gives = { λ _ e. e ≡ fault.Memory };

    fn from(_: AllocError) -> JournalFault {
        JournalFault::Memory
    }
}

/// A call of the disk failed, and its count of faults rose.
#[derive(Clone, Copy, Debug, Error)]
#[error("the disk failed")]
pub struct DiskFailed;

impl From<Failed> for DiskFailed {
    fn from(_: Failed) -> DiskFailed {
        DiskFailed
    }
}

/// Why a file was not begun to be written whole.
#[derive(Clone, Copy, Debug, Error)]
pub enum CompactFault {
    /// A call of the disk failed, and its count of faults rose.
    #[error("the disk failed")]
    DiskFailed,
    /// The file is neither short nor one whose writing was not finished.
    #[error("the file is not empty")]
    NotEmpty,
}
