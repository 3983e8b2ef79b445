//! A write with the sync behind it.
ghost use Rattle.std.specs.Prelude.{◌≡◌, ◌+◌, ◌<◌, ◌≤◌, ◌^◌, length, true, OnOk, OnErr};
ghost use Rattle.rtb_base.specs.Faults.{CountsErrors};
ghost use Rattle.rtb_disk.specs.Stores.{Fails, changed, overwritten, settled, write};

use rtb_disk::Disk;
use rtb_num::Failed;

// Writes the bytes at the place, and syncs.
pub(crate) fn write_synced<D: Disk>(disk: &mut D, place: u64, bytes: &[u8]) -> Result<(), Failed>
    requires inside { (D.store disk.old).told ≡ true → place ≤ length (D.store disk.old).reads }
    ensures done { (D.store disk.old).told ≡ true → OnOk result (D.store disk.new ≡ settled (changed (write place (length bytes.now)) (overwritten (D.store disk.old).reads place bytes.now) (D.store disk.old))) }
    ensures failed { (D.store disk.old).told ≡ true → OnErr result (Fails (write place (length bytes.now)) (D.store disk.old) (D.store disk.new)) }
    ensures bound { OnOk result (place + length bytes.now < 2 ^ 63) }
    ensures told { (D.store disk.new).told ≡ (D.store disk.old).told }
    ensures cause { CountsErrors (D.faults disk.old) (D.faults disk.new) result }
{
    disk.write_at(place, bytes)?;
    disk.sync()?;
    Ok(())
}
