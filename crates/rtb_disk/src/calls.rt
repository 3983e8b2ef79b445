//! The calls that were made of a disk in memory.
use rtb_num::Txt;

/// A call of a disk.
#[derive(Drop)]
pub enum Call {
    Length,
    /// A read of up to `count` bytes.
    Read { place: u64, count: u64 },
    Write { place: u64, bytes: Txt },
    /// A cut to the first `count` bytes.
    Cut { count: u64 },
    Sync,
}

/// A call that was made of a disk in memory, and whether it failed.
#[derive(Drop)]
pub struct Made {
    pub call: Call,
    pub failed: bool,
}

impl Made {
    ghost use Rattle.std.specs.Prelude.{◌≡◌};
    ghost use Rattle.rtb_disk.specs.Record.{is_change, is_settling};

    // Whether it is a write or a cut.
    pub(crate) fn changes(&self) -> bool
        ensures { result ≡ is_change self.now.call }
    {
        match &self.call {
            Call::Write { .. } | Call::Cut { .. } => true,
            Call::Length | Call::Read { .. } | Call::Sync => false,
        }
    }

    // Whether it is a sync that succeeded.
    pub(crate) fn settles(&self) -> bool
        ensures { result ≡ is_settling self.now }
    {
        match &self.call {
            Call::Sync => !self.failed,
            Call::Length | Call::Read { .. } | Call::Write { .. } | Call::Cut { .. } => false,
        }
    }
}
