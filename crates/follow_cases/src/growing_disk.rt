//! The disk of a file that another program writes: it grows between two calls, and tells what each of them showed.
ghost use Rattle.std.specs.Prelude.{◌≡◌, ◌++◌, ◌∷◌, [], ◌≤◌, length, map, Some, OnErr, OnOk};
ghost use Rattle.follow_cases.specs.Saw.{shown_of};
ghost use Rattle.rtb_base.specs.Faults.{CountsErrors, one_more};
ghost use Rattle.rtb_disk.specs.Images.{untold_stands};
ghost use Rattle.rtb_disk.specs.Stores.{untold};

use rtb_disk::Disk;
use rtb_num::{Calls, Failed, List, Txt};
use std::alloc::Global;

// The most bytes that a disk has.
const MAX_LENGTH: u64 = (1 << 63) - 1;

// What a call showed.
#[derive(Drop)]
pub enum Saw {
    Bytes { place: u64, asked: u64, bytes: Txt },
    Length { count: u64 },
}

/// The disk of a file that is the first of its images, and the next one from the call of each of these numbers on. It
/// keeps what its calls showed. What is called to write fails.
#[derive(Drop)]
pub struct GrowingDisk<'a> {
    alloc: Global,
    images: &'a [Txt],
    grows: List<u64>,
    calls: Calls,
    saw: List<Saw>,
}

impl<'a> GrowingDisk<'a> {
    /// A disk that has shown nothing.
    pub fn new(
        alloc: Global,
        images: &'a [Txt],
        grows: List<u64>,
        calls: Calls,
    ) -> GrowingDisk<'a> {
        GrowingDisk {
            alloc,
            images,
            grows,
            calls,
            saw: List::new(alloc),
        }
    }

    // Begins a call, or fails where it is told to.
    fn begin(&mut self) -> Result<(), Failed>
        ensures saw { self.new.saw ≡ self.old.saw }
        ensures cause { CountsErrors self.old.calls.faults self.new.calls.faults result }
    {
        if self.calls.begin() {
            return Err(self.fault());
        }
        Ok(())
    }

    // Counts a fault.
    fn fault(&mut self) -> Failed
        ensures saw { self.new.saw ≡ self.old.saw }
        ensures kept { self.old.calls.faults ≤ self.new.calls.faults }
        ensures counted { self.new.calls.faults ≡ one_more self.old.calls.faults }
    {
        self.calls.count_fault();
        Failed
    }

    // Keeps what a call showed. Where there is no memory for it, the call fails.
    #[tactic(auto, using(crate::proofs::Shown::one_kept))]
    fn keep(&mut self, saw: Saw) -> Result<(), Failed>
        ensures kept { OnOk result (map shown_of self.new.saw ≡ map shown_of self.old.saw ++ shown_of saw ∷ []) }
        ensures same { OnErr result (self.new.saw ≡ self.old.saw) }
        ensures cause { CountsErrors self.old.calls.faults self.new.calls.faults result }
    {
        if self.saw.push(saw).is_err() {
            return Err(self.fault());
        }
        Ok(())
    }

    // What the file is now.
    fn image(&self) -> &[u8] {
        let grown = passed(self.grows.as_slice(), self.calls.count());
        match self.images.get(grown) {
            Some(image) => image.as_bytes(),
            None => last_of(self.images),
        }
    }
}

// How many of these numbers, which rise, are passed.
fn passed(numbers: &[u64], count: u64) -> usize {
    numbers
        .iter()
        .take_while(|number| **number <= count)
        .count()
}

fn last_of(images: &[Txt]) -> &[u8] {
    match images {
        [.., last] => last.as_bytes(),
        [] => &[],
    }
}

// Moves as much as fits of what stands from the place on.
fn fill(out: &mut [u8], content: &[u8], place: u64) -> usize
    ensures count { result ≤ length out.new }
{
    let from = (place as usize).min(content.len());
    let n = (content.len() - from).min(out.len());
    out[..n].copy_from_slice(&content[from..from + n]);
    n
}

impl<'a> Disk for GrowingDisk<'a> {
    ghost store = { λ d. untold };

    ghost shown = { λ d. Some (map shown_of d.saw) };

    ghost faults = { λ d. d.calls.faults };

    fn length(&mut self) -> Result<u64, Failed> {
        self.begin()?;
        let count = (self.image().len() as u64).min(MAX_LENGTH);
        self.keep(Saw::Length { count })?;
        Ok(count)
    }

    fn read(&mut self, place: u64, out: &mut [u8]) -> Result<usize, Failed> {
        self.begin()?;
        let n = fill(out, self.image(), place);
        let asked = out.len() as u64;
        let Ok(bytes) = Txt::from_slice(self.alloc, &out[..n]) else {
            return Err(self.fault());
        };
        self.keep(Saw::Bytes {
            place,
            asked,
            bytes,
        })?;
        Ok(n)
    }

    fn write_at(&mut self, _place: u64, _bytes: &[u8]) -> Result<(), Failed> {
        Err(self.fault())
    }

    fn write_parts(
        &mut self,
        _place: u64,
        _head: &[u8],
        _body: &[u8],
        _tail: &[u8],
    ) -> Result<(), Failed> {
        Err(self.fault())
    }

    fn cut(&mut self, _count: u64) -> Result<(), Failed> {
        Err(self.fault())
    }

    fn sync(&mut self) -> Result<(), Failed> {
        Err(self.fault())
    }

    ghost stands = { λ d told. untold_stands told };
}
