//! The block at one gate, read by itself.
ghost use Rattle.std.specs.Prelude.{◌≡◌, ◌+◌, ◌<◌, ◌≤◌, ◌^◌, ◌++◌, ◌∷◌, ℕ, List, length, drop, true, false, None, Some, Ok, Err, IfOk, IfSome, MatchOption, OnErr};
ghost use Rattle.rtb_base.specs.Faults.{CountsErrors, RisesOnlyWhere};
ghost use Rattle.byte_fields.specs.Encodings.{eight_bytes};
ghost use Rattle.journal_file.specs.Damage.{IsBlockAt, IsShut};
ghost use Rattle.journal_file.specs.Gates.{begins_open};
ghost use Rattle.journal_file.specs.Showing.{IsBehindShown, IsGateSeen, IsNumberSeen, IsRestShown, IsSizeShown};
ghost use Rattle.journal_file.specs.Shows.{IsBlockShown, ShowsMore, TellsCut};
ghost use Rattle.journal_file.specs.Sizes.{IsSizeAt, IsWholeSize};

use crate::faults::JournalFault;
use crate::payloads::{ReadFault, read_payload};
use byte_fields::get_eight;
use rtb_disk::Disk;
use rtb_num::{Failed, Txt};

/// The block whose gate has this place, in bytes from 0: appends its payload to `out` and gives the place
/// of the next gate. None at a closed gate, and where the disk ends at or before the gate.
///
/// The gate is read first, and the disk's length behind it: so a block that another writer adds in the
/// meantime is there whole where its gate was open.
pub fn block_at<D: Disk>(
    disk: &mut D,
    gate: u64,
    out: &mut Txt,
) -> Result<Option<u64>, JournalFault>
    ensures block { (D.store disk.old).told ≡ true → IsBlockAt gate (drop gate (D.store disk.old).reads) out.old out.new result }
    ensures inside { (D.store disk.old).told ≡ true → IfOk result (λ found. IfSome found (λ next. next < length (D.store disk.old).reads)) }
    ensures bound { IfOk result (λ found. IfSome found (λ next. next < 2 ^ 63)) }
    // And where the disk is not told: the place behind what was appended, and `out` as before else.
    ensures appended { IfOk result (λ found. MatchOption found (out.new ≡ out.old) (λ next. (more : List ℕ) × (out.new ≡ out.old ++ more) × (next ≡ gate + 9 + length more))) }
    ensures kept { OnErr result (out.new ≡ out.old) }
    ensures place { (at : ℕ) → result ≡ Err (JournalFault.Damaged at) → at ≡ gate }
    // By what this call was shown alone, so also where another writer appends meanwhile.
    ensures shows { ShowsMore (D.shown disk.old) (D.shown disk.new) (λ more. IsBlockShown gate more out.old out.new result) }
    ensures cut { ShowsMore (D.shown disk.old) (D.shown disk.new) (λ more. TellsCut gate more result) }
    ensures same { D.store disk.new ≡ D.store disk.old }
    ensures cause { RisesOnlyWhere (result ≡ Err JournalFault.DiskFailed) (D.faults disk.old) (D.faults disk.new) }
{
    if is_open(disk, gate)? {
        return block_behind(disk, gate, out);
    }
    Ok(None)
}

// Whether there is an open gate at the place.
fn is_open<D: Disk>(disk: &mut D, gate: u64) -> Result<bool, Failed>
    ensures open { (D.store disk.old).told ≡ true → result ≡ Ok true → (rest : List ℕ) × (drop gate (D.store disk.old).reads ≡ 1 ∷ rest) }
    ensures shut { (D.store disk.old).told ≡ true → result ≡ Ok false → IsShut (drop gate (D.store disk.old).reads) }
    ensures shows { ShowsMore (D.shown disk.old) (D.shown disk.new) (λ more. IsGateSeen gate more result) }
    ensures same { D.store disk.new ≡ D.store disk.old }
    ensures cause { CountsErrors (D.faults disk.old) (D.faults disk.new) result }
{
    let mut byte = [0u8];
    let n = disk.read(gate, &mut byte)?;
    Ok(is_one(&byte[..n]))
}

pub(crate) fn is_one(bytes: &[u8]) -> bool
    ensures { result ≡ begins_open bytes.now }
{
    match bytes.split_first() {
        Some((gate, _)) => *gate == 1,
        None => false,
    }
}

// The block behind an open gate.
fn block_behind<D: Disk>(
    disk: &mut D,
    gate: u64,
    out: &mut Txt,
) -> Result<Option<u64>, JournalFault>
    ensures block { (D.store disk.old).told ≡ true → (rest : List ℕ) → drop gate (D.store disk.old).reads ≡ 1 ∷ rest → IsBlockAt gate (1 ∷ rest) out.old out.new result }
    ensures inside { (D.store disk.old).told ≡ true → IfOk result (λ found. IfSome found (λ next. next < length (D.store disk.old).reads)) }
    ensures bound { IfOk result (λ found. IfSome found (λ next. next < 2 ^ 63)) }
    ensures appended { IfOk result (λ found. MatchOption found (out.new ≡ out.old) (λ next. (more : List ℕ) × (out.new ≡ out.old ++ more) × (next ≡ gate + 9 + length more))) }
    ensures kept { OnErr result (out.new ≡ out.old) }
    ensures place { (at : ℕ) → result ≡ Err (JournalFault.Damaged at) → at ≡ gate }
    ensures shows { ShowsMore (D.shown disk.old) (D.shown disk.new) (λ more. IsBehindShown gate more out.old out.new result) }
    ensures same { D.store disk.new ≡ D.store disk.old }
    ensures cause { RisesOnlyWhere (result ≡ Err JournalFault.DiskFailed) (D.faults disk.old) (D.faults disk.new) }
{
    match whole_size(disk, gate)? {
        Some(size) => payload_behind(disk, gate, size, out),
        None => Err(JournalFault::Damaged { at: gate }),
    }
}

// The payload's length behind an open gate; none where its block and the next gate are not all there.
// Besides its payload a block has its gate and its length, and the next gate stands behind it: ten bytes.
fn whole_size<D: Disk>(disk: &mut D, gate: u64) -> Result<Option<u64>, Failed>
    ensures whole { (D.store disk.old).told ≡ true → IfOk result (λ found. (rest : List ℕ) → drop gate (D.store disk.old).reads ≡ 1 ∷ rest → IsWholeSize rest found) }
    ensures inside { (D.store disk.old).told ≡ true → IfOk result (λ found. IfSome found (λ size. gate + 9 + size < length (D.store disk.old).reads)) }
    ensures fits { IfOk result (λ found. IfSome found (λ size. gate + 10 + size < 2 ^ 63)) }
    ensures shows { ShowsMore (D.shown disk.old) (D.shown disk.new) (λ more. IsSizeShown gate more result) }
    ensures same { D.store disk.new ≡ D.store disk.old }
    ensures cause { CountsErrors (D.faults disk.old) (D.faults disk.new) result }
{
    let end = disk.length()?;
    let behind = end.saturating_sub(gate);
    if behind < 10 {
        return Ok(None);
    }
    match size_at(disk, gate + 1)? {
        None => Ok(None),
        Some(size) if size > behind - 10 => Ok(None),
        Some(size) => Ok(Some(size)),
    }
}

// The length at the place; none where the disk ends first.
fn size_at<D: Disk>(disk: &mut D, place: u64) -> Result<Option<u64>, Failed>
    ensures size { (D.store disk.old).told ≡ true → IfOk result (IsSizeAt (drop place (D.store disk.old).reads)) }
    ensures shows { ShowsMore (D.shown disk.old) (D.shown disk.new) (λ more. IsNumberSeen place more result) }
    ensures same { D.store disk.new ≡ D.store disk.old }
    ensures cause { CountsErrors (D.faults disk.old) (D.faults disk.new) result }
{
    let mut bytes = [0u8; 8];
    let n = disk.read(place, &mut bytes)?;
    Ok(size_of(&bytes[..n]))
}

fn size_of(bytes: &[u8]) -> Option<u64>
    ensures { IsSizeAt bytes.now result }
{
    match get_eight(bytes, 0) {
        Some((size, _)) => Some(size),
        None => None,
    }
}

// The payload of so many bytes behind an open gate and the length.
fn payload_behind<D: Disk>(
    disk: &mut D,
    gate: u64,
    size: u64,
    out: &mut Txt,
) -> Result<Option<u64>, JournalFault>
    requires fits { gate + 10 + size < 2 ^ 63 }
    requires inside { (D.store disk.old).told ≡ true → gate + 9 + size < length (D.store disk.old).reads }
    ensures block { (D.store disk.old).told ≡ true → (rest : List ℕ) → drop gate (D.store disk.old).reads ≡ 1 ∷ (eight_bytes size ++ rest) → IsBlockAt gate (1 ∷ (eight_bytes size ++ rest)) out.old out.new result }
    ensures next { IfOk result (λ found. found ≡ Some (gate + 9 + size)) }
    ensures appended { IfOk result (λ found. MatchOption found (out.new ≡ out.old) (λ next. (more : List ℕ) × (out.new ≡ out.old ++ more) × (next ≡ gate + 9 + length more))) }
    ensures kept { OnErr result (out.new ≡ out.old) }
    ensures place { (at : ℕ) → result ≡ Err (JournalFault.Damaged at) → at ≡ gate }
    ensures shows { ShowsMore (D.shown disk.old) (D.shown disk.new) (λ more. IsRestShown gate size more out.old out.new result) }
    ensures same { D.store disk.new ≡ D.store disk.old }
    ensures cause { RisesOnlyWhere (result ≡ Err JournalFault.DiskFailed) (D.faults disk.old) (D.faults disk.new) }
{
    let before = out.len();
    match read_payload(disk, gate + 9, size, out) {
        Ok(true) => Ok(Some(gate + 9 + size)),
        Ok(false) => {
            out.truncate(before);
            Err(JournalFault::Damaged { at: gate })
        }
        Err(ReadFault::Failed) => {
            out.truncate(before);
            Err(JournalFault::DiskFailed)
        }
        Err(ReadFault::Memory) => {
            out.truncate(before);
            Err(JournalFault::Memory)
        }
    }
}
