//! How a program ended.
ghost use Rattle.std.specs.Prelude.{◌≡◌};
ghost use Rattle.rtb_io.specs.Statuses.{code_of};

/// How a program ended.
#[derive(Clone, Copy, Debug, PartialEq, Eq)]
pub enum Status {
    /// What the words ask for was done.
    Done,
    /// The input was refused.
    Refused,
    /// The words are of no command.
    Usage,
    /// The world gave no door to listen at.
    NoDoor,
    /// The world gave no disk for the journal.
    NoDisk,
    /// The journal's disk failed while the journal was opened or read.
    JournalFailed,
    /// The journal is damaged.
    Damaged,
    /// The sink failed.
    NotWritten,
    /// A door failed.
    DoorFailed,
    /// Memory was refused.
    Memory,
    /// The source failed.
    NotRead,
    /// The journal's disk failed as the last effects were written.
    LastWriteFailed,
    /// A file that is to be written holds something else.
    NotEmpty,
    /// The disk of a file that is to be written failed.
    WriteFailed,
    /// A trace ends inside an entry.
    TraceTorn,
    /// A trace has more entries than may be.
    TraceTooLong,
    /// A file that is to have a key was not read, or has none.
    NoKey,
}

impl Status {
    /// Its number, which the program gives to the system.
    pub fn code(self) -> u8
        ensures { result ≡ code_of self }
    {
        match self {
            Status::Done => 0,
            Status::Refused => 1,
            Status::Usage => 2,
            Status::NoDoor => 3,
            Status::NoDisk => 4,
            Status::JournalFailed => 5,
            Status::Damaged => 6,
            Status::NotWritten => 7,
            Status::DoorFailed => 8,
            Status::Memory => 9,
            Status::NotRead => 10,
            Status::LastWriteFailed => 11,
            Status::NotEmpty => 12,
            Status::WriteFailed => 13,
            Status::TraceTorn => 14,
            Status::TraceTooLong => 15,
            Status::NoKey => 16,
        }
    }
}
