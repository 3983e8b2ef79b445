//! A link: bytes are received from it and sent over it.
ghost use Rattle.std.specs.Prelude.{◌≡◌, ℕ, ◌<◌, length, List, Option, IfOk};
ghost use Rattle.std.specs.Io.{ReadsAtMost, WritesAtMost};
ghost use Rattle.std.specs.Io.KnownBytes.{ReadConsumes, WriteAppends};
ghost use Rattle.rtb_base.specs.Faults.{CountsErrors};

use rtb_num::Failed;

/// A link: bytes are received from it and sent over it.
pub trait Link {
    // The bytes that are left to receive, and those that were sent, where that is known.
    ghost left: { Self → Option (List ℕ) };

    ghost sent: { Self → Option (List ℕ) };

    // How many calls failed so far, up to the greatest number of 64 bits.
    ghost faults: { Self → ℕ };

    /// Moves bytes that are left to the front of `out`, and tells how many: none only at the end,
    /// or where `out` is empty. A read that fails takes nothing. `inside` tells that a message has begun
    /// that is not whole: a link whose reads wait for a peer need not wait where none has.
    fn read(&mut self, out: &mut [u8], inside: bool) -> Result<usize, Failed>
        ensures bound { ReadsAtMost result out.new }
        ensures bytes { ReadConsumes (left self.old) (left self.new) result out.new }
        ensures sent { sent self.new ≡ sent self.old }
        ensures cause { CountsErrors (faults self.old) (faults self.new) result };

    /// Sends the first of the bytes, and tells how many: at least one, where there is one. A write
    /// that fails sends nothing.
    fn write(&mut self, bytes: &[u8]) -> Result<usize, Failed>
        ensures bound { WritesAtMost result bytes.now }
        ensures some { IfOk result (λ n. 0 < length bytes.now → 0 < n) }
        ensures bytes { WriteAppends (sent self.old) (sent self.new) result bytes.now }
        ensures left { left self.new ≡ left self.old }
        ensures cause { CountsErrors (faults self.old) (faults self.new) result };
}
