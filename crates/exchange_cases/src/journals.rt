//! Calls of `recovery`: what is told of journals.
use case_lines::{done, numbers_in};
use journal_file::JournalFault;
use recovery::recover;
use rtb_disk::{Disk, MemDisk};
use rtb_num::{Txt, write_decimal};
use std::alloc::{AllocError, Global};

/// Answers a call of this area, or tells that it is none.
///
/// - `recover | CONTENT | CALLS`: what is told of the journal on a disk with this content, where the calls of the
///   disk with these numbers fail.
pub fn answer(alloc: Global, call: &[u8], args: &[Txt], out: &mut Txt) -> Result<bool, AllocError> {
    match args {
        [content, fails] if call == b"recover".as_slice() => {
            done(put_recovery(alloc, content, fails.as_bytes(), out))
        }
        _ => Ok(false),
    }
}

// Appends the line, or why there is none.
fn put_recovery(
    alloc: Global,
    content: &Txt,
    fails: &[u8],
    out: &mut Txt,
) -> Result<(), AllocError> {
    let disk = MemDisk::new(alloc, content.copy()?, numbers_in(alloc, fails)?);
    tell(alloc, disk, out)
}

/// Appends what is told of the journal on what a crash leaves of the disk by the pick, or that there is no disk.
pub fn tell_journal(
    alloc: Global,
    disk: &Option<MemDisk>,
    pick: u64,
    out: &mut Txt,
) -> Result<(), AllocError> {
    match disk {
        Some(disk) => tell(alloc, disk.after_crash(pick)?, out),
        None => out.extend(b"no disk"),
    }
}

// Appends the line that is told of the journal on the disk, or why there is none.
fn tell<D: Disk + Drop>(alloc: Global, disk: D, out: &mut Txt) -> Result<(), AllocError> {
    let (_disk, told) = recover(alloc, disk, out);
    match told {
        Ok(()) => Ok(()),
        Err(fault) => tell_fault(fault, out),
    }
}

fn tell_fault(fault: JournalFault, out: &mut Txt) -> Result<(), AllocError> {
    match fault {
        JournalFault::DiskFailed => out.extend(b"disk failed"),
        JournalFault::Memory => Err(AllocError),
        JournalFault::Damaged { at } => {
            out.extend(b"damaged at ")?;
            write_decimal(at, out)
        }
    }
}
