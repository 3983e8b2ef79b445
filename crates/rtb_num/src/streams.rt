//! What bytes come from, and what they go to.
ghost use Rattle.std.specs.Prelude.{ℕ, ◌<◌, ◌≤◌, length, List, Option, IfOk};
ghost use Rattle.std.specs.Io.{ReadsAtMost, WritesAtMost};
ghost use Rattle.std.specs.Io.KnownBytes.{ReadConsumes, WriteAppends};
ghost use Rattle.rtb_base.specs.Faults.{CountsErrors};

use thiserror::Error;

/// A read or a write failed, and the object's count of faults rose.
#[derive(Clone, Copy, Debug, PartialEq, Eq, Error)]
#[error("a read or a write failed")]
pub struct Failed;

/// What bytes come from.
pub trait Source {
    // The bytes that are left, where that is known.
    ghost left: { Self → Option (List ℕ) };

    // How many reads failed so far, up to the greatest number of 64 bits.
    ghost faults: { Self → ℕ };

    /// Moves bytes that are left to the front of `out`, and tells how many: none only at the end,
    /// or where `out` is empty. A read that fails takes nothing.
    fn read(&mut self, out: &mut [u8]) -> Result<usize, Failed>
        ensures bound { ReadsAtMost result out.new }
        ensures bytes { ReadConsumes (left self.old) (left self.new) result out.new }
        ensures cause { CountsErrors (faults self.old) (faults self.new) result };
}

/// What bytes go to.
pub trait Sink {
    // The bytes that were written, where that is known.
    ghost written: { Self → Option (List ℕ) };

    // How many writes failed so far, up to the greatest number of 64 bits.
    ghost faults: { Self → ℕ };

    /// Appends the first of the bytes, and tells how many: at least one, where there is one. A
    /// write that fails appends nothing.
    fn write(&mut self, bytes: &[u8]) -> Result<usize, Failed>
        ensures bound { WritesAtMost result bytes.now }
        ensures some { IfOk result (λ n. 0 < length bytes.now → 0 < n) }
        ensures bytes { WriteAppends (written self.old) (written self.new) result bytes.now }
        ensures cause { CountsErrors (faults self.old) (faults self.new) result };
}
