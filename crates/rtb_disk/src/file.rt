//! A disk in a file of the system.
ghost use Rattle.std.specs.Prelude.{◌≡◌, ◌≤◌, length, None, IfOk, IfSome};
ghost use Rattle.rtb_base.specs.Faults.{CountsErrors, one_more};
ghost use Rattle.rtb_disk.specs.Stores.{untold};
ghost use Rattle.rtb_disk.specs.Images.{untold_stands};

use crate::disk::{Disk, parts_len};
use crate::known::Known;
use crate::notices::{Notices, say};
use crate::opening::{Wanted, open_alone, open_to_read};
use rtb_num::Failed;
use std::fs::File;
use std::io::{self, IoSlice, Seek, SeekFrom};
use std::os::unix::fs::FileExt;

/// The most bytes that a disk has.
const MAX_LENGTH: u64 = (1 << 63) - 1;

/// A disk in a file of the system. Contracts do not see what the file holds.
///
/// A file that may be written is locked through the very descriptor that writes, until the disk is let go of or its
/// process ends: no second process opens it so. Before parts are written, the disk looks whether the file has its name and
/// its length still, and fails where others took it away. Why a file was not opened, the first failure of an open one
/// and that it is mended are said on standard error.
#[derive(Drop)]
pub struct FileDisk<'r> {
    file: File,
    // Where the file's own position is, at which parts are written.
    position: u64,
    known: Known,
    notices: Notices<'r>,
    faults: u64,
}

impl<'r> FileDisk<'r> {
    /// The file with this name, for this process alone, which is made where it is missing. Its folder is synced too, so
    /// that a crash does not lose the file with what was written to it.
    pub fn open_alone(rt: &'r HostRuntime, path: &str) -> Result<FileDisk<'r>, Failed>
        ensures { IfOk result (λ d. ⟦<FileDisk<'r> as Disk>⟧.faults d ≡ 0) }
    {
        disk_over(rt, path, open_alone(rt, path, Wanted::MadeWhereMissing))
    }

    /// The same, where there is one with something in it: none is made.
    pub fn open_there(rt: &'r HostRuntime, path: &str) -> Result<FileDisk<'r>, Failed>
        ensures { IfOk result (λ d. ⟦<FileDisk<'r> as Disk>⟧.faults d ≡ 0) }
    {
        disk_over(rt, path, open_alone(rt, path, Wanted::There))
    }

    /// The file with this name, where there is one, to be read alone: each write of it fails.
    pub fn open_to_read(rt: &'r HostRuntime, path: &str) -> Result<FileDisk<'r>, Failed>
        ensures { IfOk result (λ d. ⟦<FileDisk<'r> as Disk>⟧.faults d ≡ 0) }
    {
        disk_over(rt, path, open_to_read(rt, path))
    }

    // Counts a fault.
    fn fault(&mut self) -> Failed
        ensures kept { self.old.faults ≤ self.new.faults }
        ensures counted { self.new.faults ≡ one_more self.old.faults }
    {
        self.faults = self.faults.saturating_add(1);
        Failed
    }

    // Counts a fault where the system answers one, and says it where it is the first.
    fn settle(&mut self, answer: io::Result<()>) -> Result<(), Failed>
        ensures { CountsErrors self.old.faults self.new.faults result }
    {
        match answer {
            Ok(()) => Ok(()),
            Err(fault) => {
                self.notices.failed(&fault);
                Err(self.fault())
            }
        }
    }

    // Writes the bytes at the place.
    fn write_bytes(&mut self, place: u64, bytes: &[u8]) -> io::Result<()>
        ensures { self.new.faults ≡ self.old.faults }
    {
        let answer = self.file.write_all_at(bytes, place);
        let end = place.saturating_add(bytes.len() as u64);
        self.known.write_to(end, answer.is_ok());
        answer
    }

    // Writes the three at the place, one behind the other, in one call of the system where that takes them all.
    fn write_joined(&mut self, place: u64, head: &[u8], body: &[u8], tail: &[u8]) -> io::Result<()>
        ensures { self.new.faults ≡ self.old.faults }
    {
        let rt = self.notices.runtime();
        self.known.look(rt, self.notices.path())?;
        let end = place.saturating_add(parts_len(head, body, tail));
        self.known.write_to(end, false);
        if self.position != place {
            self.position = self.file.seek(SeekFrom::Start(place))?;
        }
        let parts = [IoSlice::new(head), IoSlice::new(body), IoSlice::new(tail)];
        let done = self.file.write_vectored(&parts)?;
        self.position = place.saturating_add(done as u64);
        write_rest(&self.file, place, done, [head, body, tail])?;
        self.known.write_to(end, true);
        Ok(())
    }
}

// Writes what is left behind the first so many bytes of the parts, which begin at the place.
fn write_rest(file: &File, place: u64, done: usize, parts: [&[u8]; 3]) -> io::Result<()> {
    let mut at = place;
    let mut done = done;
    for part in parts {
        let written = done.min(part.len());
        file.write_all_at(&part[written..], at.saturating_add(written as u64))?;
        at = at.saturating_add(part.len() as u64);
        done -= written;
    }
    Ok(())
}

// A disk over the file that was opened. Where none was, it says why.
fn disk_over<'r>(
    rt: &'r HostRuntime,
    path: &str,
    opened: io::Result<(File, Known)>,
) -> Result<FileDisk<'r>, Failed>
    ensures { IfOk result (λ d. d.faults ≡ 0) }
{
    match opened {
        Ok((file, known)) => match Notices::new(rt, path) {
            Ok(notices) => Ok(FileDisk {
                file,
                position: 0,
                known,
                notices,
                faults: 0,
            }),
            Err(_) => Err(Failed),
        },
        Err(fault) => {
            say(rt, path, &fault);
            Err(Failed)
        }
    }
}

// Reads until `out` is full or the file ends.
fn read_on(file: &File, place: u64, out: &mut [u8]) -> io::Result<usize>
    ensures { IfOk result (λ n. n ≤ length out.new) }
{
    let mut at = 0;
    while at < out.len() {
        match file.read_at(&mut out[at..], place.saturating_add(at as u64)) {
            Ok(0) => return Ok(at),
            Ok(n) => at += n,
            Err(fault) => return Err(fault),
        }
    }
    Ok(at)
}

impl<'r> Disk for FileDisk<'r> {
    ghost store = { λ d. untold };

    ghost shown = { λ d. None };

    ghost faults = { λ d. d.faults };

    fn length(&mut self) -> Result<u64, Failed> {
        match self.file.metadata() {
            Ok(found) => {
                let n = found.len();
                if n > MAX_LENGTH {
                    return Err(self.fault());
                }
                Ok(n)
            }
            Err(fault) => {
                self.notices.failed(&fault);
                Err(self.fault())
            }
        }
    }

    fn read(&mut self, place: u64, out: &mut [u8]) -> Result<usize, Failed> {
        if place > MAX_LENGTH {
            return Ok(0);
        }
        match read_on(&self.file, place, out) {
            Ok(n) => Ok(n),
            Err(fault) => {
                self.notices.failed(&fault);
                Err(self.fault())
            }
        }
    }

    fn write_at(&mut self, place: u64, bytes: &[u8]) -> Result<(), Failed> {
        if place.saturating_add(bytes.len() as u64) > MAX_LENGTH {
            return Err(self.fault());
        }
        let answer = self.write_bytes(place, bytes);
        self.settle(answer)
    }

    fn write_parts(
        &mut self,
        place: u64,
        head: &[u8],
        body: &[u8],
        tail: &[u8],
    ) -> Result<(), Failed> {
        if place.saturating_add(parts_len(head, body, tail)) > MAX_LENGTH {
            return Err(self.fault());
        }
        let answer = self.write_joined(place, head, body, tail);
        self.settle(answer)
    }

    fn cut(&mut self, count: u64) -> Result<(), Failed> {
        let answer = self.file.set_len(count);
        self.known.cut_to(count, answer.is_ok());
        self.settle(answer)
    }

    // The system keeps the bytes and the length by it, and leaves out the times of the file.
    fn sync(&mut self) -> Result<(), Failed> {
        let answer = self.file.sync_data();
        if answer.is_ok() {
            self.notices.synced();
        }
        self.settle(answer)
    }

    ghost stands = { λ d told. untold_stands told };
}
