//! What keeps bytes through a crash.
ghost use Rattle.std.specs.Prelude.{◌≡◌, ◌+◌, ◌-◌, ◌++◌, ◌<◌, ◌≤◌, ◌^◌, ℕ, List, Option, length, drop, take, min, true, IfOk, OnOk, OnErr};
ghost use Rattle.rtb_base.specs.Faults.{CountsErrors};
ghost use Rattle.rtb_disk.specs.Showing.{Shown, bytes_from, length_was, one_more_shown};
ghost use Rattle.rtb_disk.specs.Stores.{Store, IsImage, write, cut, overwritten, changed, settled, Fails};

use rtb_num::Failed;

/// What keeps bytes through a crash.
///
/// A change is kept for sure once a later sync has succeeded. Until then a crash may leave it done, not
/// done, or done in part: each byte that it was to change may be any byte, while all other bytes stay.
/// Places are counted in bytes from 0, and a disk has fewer than 2^63 of them.
pub trait Disk {
    // What is known of it.
    ghost store: { Self → Store };

    // What its calls showed so far, the last at the end, where that is told.
    ghost shown: { Self → Option (List Shown) };

    // How many calls failed so far, up to the greatest number of 64 bits.
    ghost faults: { Self → ℕ };

    /// How many bytes it has.
    fn length(&mut self) -> Result<u64, Failed>
        ensures value { (store self.old).told ≡ true → IfOk result (λ n. n ≡ length (store self.old).reads) }
        ensures bound { IfOk result (λ n. n < 2 ^ 63) }
        ensures same { store self.new ≡ store self.old }
        ensures shows { IfOk result (λ n. shown self.new ≡ one_more_shown (length_was n) (shown self.old)) }
        ensures silent { OnErr result (shown self.new ≡ shown self.old) }
        ensures cause { CountsErrors (faults self.old) (faults self.new) result };

    /// Moves the bytes from the place on to the front of `out`, as far as there are any, and tells how
    /// many: none at and past the end.
    fn read(&mut self, place: u64, out: &mut [u8]) -> Result<usize, Failed>
        ensures bound { IfOk result (λ n. n ≤ length out.new) }
        ensures count { (store self.old).told ≡ true → IfOk result (λ n. n ≡ min (length out.old) (length (drop place (store self.old).reads))) }
        ensures bytes { (store self.old).told ≡ true → IfOk result (λ n. take n out.new ≡ take n (drop place (store self.old).reads)) }
        ensures same { store self.new ≡ store self.old }
        ensures shows { IfOk result (λ n. shown self.new ≡ one_more_shown (bytes_from place (length out.old) (take n out.new)) (shown self.old)) }
        ensures silent { OnErr result (shown self.new ≡ shown self.old) }
        ensures cause { CountsErrors (faults self.old) (faults self.new) result };

    /// Writes the bytes over what is there from the place on, and past the end. A write that fails may
    /// have been done in part.
    fn write_at(&mut self, place: u64, bytes: &[u8]) -> Result<(), Failed>
        requires inside { (store self.old).told ≡ true → place ≤ length (store self.old).reads }
        ensures done { (store self.old).told ≡ true → OnOk result (store self.new ≡ changed (write place (length bytes.now)) (overwritten (store self.old).reads place bytes.now) (store self.old)) }
        ensures failed { (store self.old).told ≡ true → OnErr result (Fails (write place (length bytes.now)) (store self.old) (store self.new)) }
        ensures told { (store self.new).told ≡ (store self.old).told }
        ensures silent { shown self.new ≡ shown self.old }
        ensures bound { OnOk result (place + length bytes.now < 2 ^ 63) }
        ensures cause { CountsErrors (faults self.old) (faults self.new) result };

    /// Writes head, body and tail over what is there from the place on, one behind the other, as one write.
    fn write_parts(
        &mut self,
        place: u64,
        head: &[u8],
        body: &[u8],
        tail: &[u8],
    ) -> Result<(), Failed>
        requires inside { (store self.old).told ≡ true → place ≤ length (store self.old).reads }
        ensures done { (store self.old).told ≡ true → OnOk result (store self.new ≡ changed (write place (length (head.now ++ body.now ++ tail.now))) (overwritten (store self.old).reads place (head.now ++ body.now ++ tail.now)) (store self.old)) }
        ensures failed { (store self.old).told ≡ true → OnErr result (Fails (write place (length (head.now ++ body.now ++ tail.now))) (store self.old) (store self.new)) }
        ensures told { (store self.new).told ≡ (store self.old).told }
        ensures silent { shown self.new ≡ shown self.old }
        ensures bound { OnOk result (place + length (head.now ++ body.now ++ tail.now) < 2 ^ 63) }
        ensures cause { CountsErrors (faults self.old) (faults self.new) result };

    /// Cuts off what is behind the first `count` bytes. A cut that fails may have been done in part.
    fn cut(&mut self, count: u64) -> Result<(), Failed>
        requires inside { (store self.old).told ≡ true → count ≤ length (store self.old).reads }
        ensures done { (store self.old).told ≡ true → OnOk result (store self.new ≡ changed (cut count) (take count (store self.old).reads) (store self.old)) }
        ensures failed { (store self.old).told ≡ true → OnErr result (Fails (cut count) (store self.old) (store self.new)) }
        ensures told { (store self.new).told ≡ (store self.old).told }
        ensures silent { shown self.new ≡ shown self.old }
        ensures cause { CountsErrors (faults self.old) (faults self.new) result };

    /// Keeps what a read gives: where it succeeds, a crash leaves that and nothing else.
    fn sync(&mut self) -> Result<(), Failed>
        ensures done { (store self.old).told ≡ true → OnOk result (store self.new ≡ settled (store self.old)) }
        ensures failed { (store self.old).told ≡ true → OnErr result (store self.new ≡ store self.old) }
        ensures told { (store self.new).told ≡ (store self.old).told }
        ensures silent { shown self.new ≡ shown self.old }
        ensures cause { CountsErrors (faults self.old) (faults self.new) result };

    // What a read gives is one of the images.
    ghost stands: { (disk : Self) → (store disk).told ≡ true → IsImage (store disk).now (store disk).reads };
}

/// How many bytes the three have, up to the greatest number of 64 bits.
pub fn parts_len(head: &[u8], body: &[u8], tail: &[u8]) -> u64
    ensures { result ≡ min (2 ^ 64 - 1) (length (head.now ++ body.now ++ tail.now)) }
{
    let front = (head.len() as u64).saturating_add(body.len() as u64);
    front.saturating_add(tail.len() as u64)
}
