//! What is said of a trace.
ghost use Rattle.std.specs.Prelude.{◌≡◌};
ghost use Rattle.audit.specs.Verdicts.{of_journal, of_source};
ghost use Rattle.audit.specs.declared.verdict.AuditFault.TheVariants.{Memory as memory};

use journal_file::JournalFault;
use rtb_io::ReadFault;
use std::alloc::AllocError;
use thiserror::Error;

/// A trace that was read as far as its answers allow.
#[derive(Clone, Copy, Debug, PartialEq, Eq)]
pub enum Verdict {
    /// Each entry accounts for its answer. `passed` of them tell that memory or the store failed, and say no more.
    Legal { entries: u64, passed: u64 },
    /// The entry with this number, counted from 0, is the first that does not.
    Illegal { at: u64 },
}

/// Why nothing is said of a trace.
#[derive(Clone, Copy, Debug, PartialEq, Eq, Error)]
pub enum AuditFault {
    #[error("the journal's disk failed")]
    DiskFailed,
    /// The place, in bytes.
    #[error("the journal is damaged at {at}")]
    Damaged { at: u64 },
    #[error("the source of the trace failed")]
    SourceFailed,
    /// All entries before it account for their answers.
    #[error("the trace is torn at {at}")]
    Torn { at: u64 },
    #[error("the trace has more entries than may be")]
    TooLong,
    #[error("memory ran out")]
    Memory,
}

impl From<AllocError> for AuditFault {
    ghost from_gives = { λ _ e. e ≡ memory };

    fn from(_: AllocError) -> AuditFault {
        AuditFault::Memory
    }
}

impl From<ReadFault> for AuditFault {
    ghost from_gives = { λ fault e. e ≡ of_source fault };

    fn from(fault: ReadFault) -> AuditFault {
        match fault {
            ReadFault::Failed => AuditFault::SourceFailed,
            ReadFault::Memory => AuditFault::Memory,
        }
    }
}

impl From<JournalFault> for AuditFault {
    ghost from_gives = { λ fault e. e ≡ of_journal fault };

    fn from(fault: JournalFault) -> AuditFault {
        match fault {
            JournalFault::DiskFailed => AuditFault::DiskFailed,
            JournalFault::Damaged { at } => AuditFault::Damaged { at },
            JournalFault::Memory => AuditFault::Memory,
        }
    }
}
