//! The payload of a block, read from the disk.
ghost use Rattle.std.specs.Prelude.{◌≡◌, ◌≢◌, ◌+◌, ◌<◌, ◌≤◌, ◌^◌, ◌++◌, ℕ, List, length, drop, take, true, false, Ok, Err};
ghost use Rattle.rtb_base.specs.Faults.{Rose};
ghost use Rattle.journal_file.specs.Showing.{ArePayloadShown};
ghost use Rattle.journal_file.specs.Shows.{ShowsMore};
ghost use Rattle.journal_file.specs.declared.payloads.ReadFault.TheVariants.{Failed as failed, Memory as memory};

use rtb_disk::Disk;
use rtb_num::{Failed, Txt};
use std::alloc::AllocError;

// Why a payload was not read.
#[derive(Clone, Copy)]
pub(crate) enum ReadFault {
    Failed,
    Memory,
}

impl From<Failed> for ReadFault {
    ghost from_gives = { λ _ e. e ≡ failed };

    fn from(_: Failed) -> ReadFault {
        ReadFault::Failed
    }
}

impl From<AllocError> for ReadFault {
    ghost from_gives = { λ _ e. e ≡ memory };

    fn from(_: AllocError) -> ReadFault {
        ReadFault::Memory
    }
}

// Appends so many bytes from the place on, and tells whether all were there. Otherwise, and where it
// fails, it has appended some.
pub(crate) fn read_payload<D: Disk>(
    disk: &mut D,
    place: u64,
    count: u64,
    out: &mut Txt,
) -> Result<bool, ReadFault>
    requires { place + count < 2 ^ 63 }
    ensures whole { (D.store disk.old).told ≡ true → result ≡ Ok true → out.new ≡ out.old ++ take count (drop place (D.store disk.old).reads) }
    ensures short { (D.store disk.old).told ≡ true → result ≡ Ok false → length (D.store disk.old).reads < place + count }
    ensures front { (more : List ℕ) × (out.new ≡ out.old ++ more) }
    ensures long { result ≡ Ok true → length out.new ≡ length out.old + count }
    ensures shows { ShowsMore (D.shown disk.old) (D.shown disk.new) (λ more. ArePayloadShown place count more out.old out.new result) }
    ensures same { D.store disk.new ≡ D.store disk.old }
    ensures no_less { D.faults disk.old ≤ D.faults disk.new }
    ensures failed { result ≡ Err ReadFault.Failed → Rose (D.faults disk.old) (D.faults disk.new) }
    ensures quiet { result ≢ Err ReadFault.Failed → D.faults disk.new ≡ D.faults disk.old }
{
    let mut piece = [0u8; 4096];
    let mut at = place;
    let mut left = count;
    while left > 0 {
        let want = left.min(4096) as usize;
        let n = disk.read(at, &mut piece[..want])?;
        if n == 0 {
            return Ok(false);
        }
        out.extend(&piece[..n])?;
        at += n as u64;
        left -= n as u64;
    }
    Ok(true)
}
