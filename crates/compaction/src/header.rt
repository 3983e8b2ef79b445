//! The first bytes of a journal that another program writes.
ghost use Rattle.std.specs.Prelude.{◌≡◌, List, ℕ, length, take, true, IfOk};
ghost use Rattle.compaction.specs.Headers.{BeginsAs};
ghost use Rattle.compaction.specs.Seen.{SeesHead};
ghost use Rattle.journal_file.specs.Shows.{ShowsMore};
ghost use Rattle.rtb_base.specs.Faults.{CountsErrors};

use rtb_disk::Disk;
use rtb_num::Failed;

// What a file begins as: a creation that was not finished, a journal, or neither.
#[derive(Clone, Copy)]
pub(crate) enum Header {
    Creation,
    Journal,
    Foreign,
}

// What the file begins as.
//
// One read tells the gate and whether there are more bytes than a creation has: a system sees how many there are before
// it copies them. By a length that is taken behind the gate, a creation that was finished and grew in between would be
// told as neither.
pub(crate) fn read_header<D: Disk>(disk: &mut D) -> Result<Header, Failed>
    ensures begins { (D.store disk.old).told ≡ true → IfOk result (BeginsAs (D.store disk.old).reads) }
    ensures shows { ShowsMore (D.shown disk.old) (D.shown disk.new) (λ shown. IfOk result (λ header. SeesHead (λ head. BeginsAs head header) shown)) }
    ensures same { D.store disk.new ≡ D.store disk.old }
    ensures cause { CountsErrors (D.faults disk.old) (D.faults disk.new) result }
{
    let mut head = [0u8; 10];
    let n = disk.read(0, &mut head)?;
    Ok(header_of(&head[..n]))
}

// What a file is whose first ten bytes are these, or all that it has.
fn header_of(head: &[u8]) -> Header
    ensures { (image : List ℕ) → head.now ≡ take 10 image → BeginsAs image result }
{
    if head.len() < 9 {
        return Header::Creation;
    }
    if head[0] != 1 {
        if head.len() == 9 {
            return Header::Creation;
        }
        return Header::Foreign;
    }
    let name = &head[1..8];
    if name == b"RTBXJ01".as_slice() {
        return Header::Journal;
    }
    if name == b"RTBXJ02".as_slice() {
        return Header::Journal;
    }
    Header::Foreign
}
