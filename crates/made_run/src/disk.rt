//! The disk of a run: bytes in memory, and nothing else. A run is served once and its disk is let go, so it keeps no
//! record of its calls, as the one of `rtb_disk` does.
ghost use Rattle.std.specs.Prelude.{◌≡◌, ◌≤◌, length, None};
ghost use Rattle.rtb_base.specs.Faults.{CountsErrors, one_more};
ghost use Rattle.rtb_disk.specs.Images.{untold_stands};
ghost use Rattle.rtb_disk.specs.Stores.{untold};

use rtb_disk::{Disk, parts_len};
use rtb_num::Failed;
use std::alloc::{AllocError, Global};

// The most bytes that a disk has.
const MAX_LENGTH: u64 = (1 << 63) - 1;

/// A disk in memory. Contracts do not see what it holds. A call that finds no memory fails.
#[derive(Drop)]
pub(crate) struct RunDisk {
    bytes: Vec<u8>,
    faults: u64,
}

impl RunDisk {
    /// A disk without a byte. It takes no memory.
    pub(crate) fn new(alloc: Global) -> RunDisk {
        RunDisk {
            bytes: Vec::new(alloc),
            faults: 0,
        }
    }

    // Counts a fault.
    fn fault(&mut self) -> Failed
        ensures kept { self.old.faults ≤ self.new.faults }
        ensures counted { self.new.faults ≡ one_more self.old.faults }
    {
        self.faults = self.faults.saturating_add(1);
        Failed
    }

    // Counts a fault where memory was wanting.
    fn settle(&mut self, answer: Result<(), AllocError>) -> Result<(), Failed>
        ensures { CountsErrors self.old.faults self.new.faults result }
    {
        match answer {
            Ok(()) => Ok(()),
            Err(_) => Err(self.fault()),
        }
    }
}

// Writes over what is there from the place on, and past the end. A gap is filled with zeros.
fn write_over(items: &mut Vec<u8>, place: usize, bytes: &[u8]) -> Result<(), AllocError> {
    if place == items.len() {
        return items.extend_from_slice(bytes);
    }
    let Some(end) = place.checked_add(bytes.len()) else {
        return Err(AllocError);
    };
    let long = end.max(items.len());
    items.resize(long, 0)?;
    items[place..end].copy_from_slice(bytes);
    Ok(())
}

// The same, of all parts, one behind the other.
fn write_all_over(items: &mut Vec<u8>, place: usize, parts: [&[u8]; 3]) -> Result<(), AllocError> {
    let mut at = place;
    for part in parts {
        write_over(items, at, part)?;
        at = at.saturating_add(part.len());
    }
    Ok(())
}

// Moves as much as fits.
fn fill(out: &mut [u8], rest: &[u8]) -> usize
    ensures count { result ≤ length out.new }
{
    let n = rest.len().min(out.len());
    out[..n].copy_from_slice(&rest[..n]);
    n
}

impl Disk for RunDisk {
    ghost store = { λ d. untold };

    ghost shown = { λ d. None };

    ghost faults = { λ d. d.faults };

    fn length(&mut self) -> Result<u64, Failed> {
        let n = self.bytes.len() as u64;
        if n > MAX_LENGTH {
            return Err(self.fault());
        }
        Ok(n)
    }

    fn read(&mut self, place: u64, out: &mut [u8]) -> Result<usize, Failed> {
        let content = self.bytes.as_slice();
        let from = (place as usize).min(content.len());
        Ok(fill(out, &content[from..]))
    }

    fn write_at(&mut self, place: u64, bytes: &[u8]) -> Result<(), Failed> {
        if place.saturating_add(bytes.len() as u64) > MAX_LENGTH {
            return Err(self.fault());
        }
        let written = write_over(&mut self.bytes, place as usize, bytes);
        self.settle(written)
    }

    fn write_parts(
        &mut self,
        place: u64,
        head: &[u8],
        body: &[u8],
        tail: &[u8],
    ) -> Result<(), Failed> {
        if place.saturating_add(parts_len(head, body, tail)) > MAX_LENGTH {
            return Err(self.fault());
        }
        let written = write_all_over(&mut self.bytes, place as usize, [head, body, tail]);
        self.settle(written)
    }

    fn cut(&mut self, count: u64) -> Result<(), Failed> {
        self.bytes.truncate(count as usize);
        Ok(())
    }

    fn sync(&mut self) -> Result<(), Failed> {
        Ok(())
    }

    ghost stands = { λ d told. untold_stands told };
}
