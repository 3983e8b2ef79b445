//! The block ahead of what was read, from a piece of the disk or past its end.
ghost use Rattle.std.specs.Prelude.{◌≡◌, ◌+◌, ◌<◌, ◌^◌, ◌++◌, ℕ, List, length, drop, take, true, Err, IfOk, IfSome, MatchOption, OnErr};
ghost use Rattle.rtb_base.specs.Faults.{RisesOnlyWhere};
ghost use Rattle.journal_file.specs.Damage.{IsBlockAt};
ghost use Rattle.journal_file.specs.Pieces.{BeginsFrom};

use crate::at_gates::block_at;
use crate::faults::JournalFault;
use crate::piece::Piece;
use rtb_disk::Disk;
use rtb_num::Txt;

// What `block_at` answers, with a call of the disk only where the piece does not have the block.
//
// A piece is read from its front on, so the gate before its block: so one that another writer adds in the
// meantime is there whole where its gate was open.
pub(crate) fn block_ahead<D: Disk>(
    disk: &mut D,
    piece: &mut Piece,
    gate: u64,
    out: &mut Txt,
) -> Result<Option<u64>, JournalFault>
    requires low { gate < 2 ^ 63 }
    requires held { (D.store disk.old).told ≡ true → BeginsFrom piece.old.place (take piece.old.count piece.old.bytes) (D.store disk.old).reads }
    ensures held { (D.store disk.old).told ≡ true → BeginsFrom piece.new.place (take piece.new.count piece.new.bytes) (D.store disk.old).reads }
    ensures block { (D.store disk.old).told ≡ true → IsBlockAt gate (drop gate (D.store disk.old).reads) out.old out.new result }
    ensures inside { (D.store disk.old).told ≡ true → IfOk result (λ found. IfSome found (λ next. next < length (D.store disk.old).reads)) }
    ensures bound { IfOk result (λ found. IfSome found (λ next. next < 2 ^ 63)) }
    ensures appended { IfOk result (λ found. MatchOption found (out.new ≡ out.old) (λ next. (more : List ℕ) × (out.new ≡ out.old ++ more) × (next ≡ gate + 9 + length more))) }
    ensures kept { OnErr result (out.new ≡ out.old) }
    ensures place { (at : ℕ) → result ≡ Err (JournalFault.Damaged at) → at ≡ gate }
    ensures same { D.store disk.new ≡ D.store disk.old }
    ensures cause { RisesOnlyWhere (result ≡ Err JournalFault.DiskFailed) (D.faults disk.old) (D.faults disk.new) }
{
    match piece.block(gate, out)? {
        Some(next) => Ok(Some(next)),
        None => block_filled(disk, piece, gate, out),
    }
}

// The same, where the piece as it is does not have the block.
fn block_filled<D: Disk>(
    disk: &mut D,
    piece: &mut Piece,
    gate: u64,
    out: &mut Txt,
) -> Result<Option<u64>, JournalFault>
    requires low { gate < 2 ^ 63 }
    ensures held { (D.store disk.old).told ≡ true → BeginsFrom piece.new.place (take piece.new.count piece.new.bytes) (D.store disk.old).reads }
    ensures block { (D.store disk.old).told ≡ true → IsBlockAt gate (drop gate (D.store disk.old).reads) out.old out.new result }
    ensures inside { (D.store disk.old).told ≡ true → IfOk result (λ found. IfSome found (λ next. next < length (D.store disk.old).reads)) }
    ensures bound { IfOk result (λ found. IfSome found (λ next. next < 2 ^ 63)) }
    ensures appended { IfOk result (λ found. MatchOption found (out.new ≡ out.old) (λ next. (more : List ℕ) × (out.new ≡ out.old ++ more) × (next ≡ gate + 9 + length more))) }
    ensures kept { OnErr result (out.new ≡ out.old) }
    ensures place { (at : ℕ) → result ≡ Err (JournalFault.Damaged at) → at ≡ gate }
    ensures same { D.store disk.new ≡ D.store disk.old }
    ensures cause { RisesOnlyWhere (result ≡ Err JournalFault.DiskFailed) (D.faults disk.old) (D.faults disk.new) }
{
    piece.fill(disk, gate)?;
    match piece.block(gate, out)? {
        Some(next) => Ok(Some(next)),
        None => block_at(disk, gate, out),
    }
}
