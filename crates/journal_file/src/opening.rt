//! What the first bytes of a disk say: no journal yet, a torn creation, a journal, or another file.
ghost use Rattle.std.specs.Prelude.{◌≡◌, ◌⊎◌, ◌<◌, ◌^◌, List, ℕ, length, take, true, IfOk, OnOk, OnErr};
ghost use Rattle.rtb_base.specs.Faults.{CountsErrors};
ghost use Rattle.rtb_disk.specs.Stores.{settled};
ghost use Rattle.journal_file.specs.Openings.{IsOpening, is_journal};

use rtb_disk::Disk;
use rtb_num::Failed;

// What a file begins as: a creation that was not finished, a journal, or neither.
#[derive(Clone, Copy)]
pub(crate) enum Opening {
    Creation,
    Journal,
    Foreign,
}

// What a file of this size is that begins with these bytes, at most nine.
fn opening_of(head: &[u8], size: u64) -> Opening
    ensures opening { (image : List ℕ) → head.now ≡ take 9 image → size ≡ length image → IsOpening result image }
    ensures inside { is_journal result ≡ true → 8 < size }
{
    if head.len() < 9 {
        return Opening::Creation;
    }
    if size < 9 {
        return Opening::Creation;
    }
    if head[0] != 1 {
        if size == 9 {
            return Opening::Creation;
        }
        return Opening::Foreign;
    }
    let name = &head[1..8];
    if name == b"RTBXJ01".as_slice() {
        return Opening::Journal;
    }
    if name == b"RTBXJ02".as_slice() {
        return Opening::Journal;
    }
    Opening::Foreign
}

// Keeps what a read gives, and tells what it begins as and how long it is.
pub(crate) fn begin<D: Disk>(disk: &mut D) -> Result<(u64, Opening), Failed>
    ensures bound { IfOk result (λ r. r.0 < 2 ^ 63) }
    ensures inside { IfOk result (λ r. is_journal r.1 ≡ true → 8 < r.0) }
    ensures size { (D.store disk.new).told ≡ true → IfOk result (λ r. r.0 ≡ length (D.store disk.new).reads) }
    ensures opening { (D.store disk.old).told ≡ true → IfOk result (λ r. IsOpening r.1 (D.store disk.old).reads) }
    ensures synced { (D.store disk.old).told ≡ true → OnOk result (D.store disk.new ≡ settled (D.store disk.old)) }
    ensures left { (D.store disk.old).told ≡ true → OnErr result ((D.store disk.new ≡ D.store disk.old) ⊎ (D.store disk.new ≡ settled (D.store disk.old))) }
    ensures told { (D.store disk.new).told ≡ (D.store disk.old).told }
    ensures cause { CountsErrors (D.faults disk.old) (D.faults disk.new) result }
{
    disk.sync()?;
    let size = disk.length()?;
    let mut head = [0u8; 9];
    let n = disk.read(0, &mut head)?;
    let opening = opening_of(&head[..n], size);
    Ok((size, opening))
}
