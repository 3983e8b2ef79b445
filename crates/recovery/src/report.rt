//! What a journal says, told without a write.
ghost use Rattle.std.specs.Prelude.{◌≡◌, Err, OnErr, true};
ghost use Rattle.journal_file.specs.Readings.{HasNotFailed, disk_read, faults_read, reads_of, store_read};
ghost use Rattle.recovery.specs.Openings.{IsAtStart, IsUnwritten, Recovers};
ghost use Rattle.rtb_base.specs.Faults.{RisesOnlyWhere};

use crate::counts::Counts;
use crate::opening::replay;
use journal_file::{JournalFault, Reading};
use rtb_disk::Disk;
use rtb_num::Txt;
use std::alloc::Global;

/// Tells what the journal on the disk says: appends the counts of the exchange that it gives, and a line feed.
///
/// Syncs the disk, reads it, and writes no byte to it. A creation that was not finished stays as it is.
pub fn recover<D: Disk>(alloc: Global, disk: D, out: &mut Txt) -> (D, Result<(), JournalFault>)
    ensures recovers { (D.store disk).told ≡ true → Recovers (D.store disk).reads out.old out.new result.1 }
    ensures kept { OnErr result.1 (out.new ≡ out.old) }
    ensures unwritten { IsUnwritten (D.store disk) (D.store result.0) }
    ensures cause { RisesOnlyWhere (result.1 ≡ Err JournalFault.DiskFailed) (D.faults disk) (D.faults result.0) }
{
    match Reading::start(disk) {
        Ok(reading) => recover_from(alloc, reading, out),
        Err((disk, fault)) => (disk, Err(fault)),
    }
}

// The same, by a reading from which nothing was read yet.
fn recover_from<D: Disk>(
    alloc: Global,
    reading: Reading<D>,
    out: &mut Txt,
) -> (D, Result<(), JournalFault>)
    ensures recovers { IsAtStart reading → Recovers (reads_of reading) out.old out.new result.1 }
    ensures kept { OnErr result.1 (out.new ≡ out.old) }
    ensures same { D.store result.0 ≡ store_read reading }
    ensures cause { HasNotFailed reading → RisesOnlyWhere (result.1 ≡ Err JournalFault.DiskFailed) (faults_read reading) (D.faults result.0) }
{
    let mut reading = reading;
    let told = tell_counts(alloc, &mut reading, out);
    (reading.into_disk(), told)
}

// Appends the counts of the exchange that the journal gives.
fn tell_counts<D: Disk>(
    alloc: Global,
    reading: &mut Reading<D>,
    out: &mut Txt,
) -> Result<(), JournalFault>
    ensures recovers { IsAtStart reading.old → Recovers (reads_of reading.old) out.old out.new result }
    ensures kept { OnErr result (out.new ≡ out.old) }
    ensures same { store_read reading.new ≡ store_read reading.old }
    ensures cause { HasNotFailed reading.old → RisesOnlyWhere (result ≡ Err JournalFault.DiskFailed) (faults_read reading.old) (faults_read reading.new) }
{
    // No sale is made, so that it is all one how long one would be held, and how many there may be.
    let core = replay(alloc, reading, 0, 0)?;
    let counts = Counts::of(&core);
    drop(core);
    counts.put(out)?;
    Ok(())
}
