//! The network, the files and the clock of the system.
ghost use Rattle.std.specs.Prelude.{◌≡◌, ◌≤◌, [], None, length, IfOk, IfSome};
ghost use Rattle.rtb_base.specs.Faults.{one_more};

use crate::asked::{
    Asked, note_disk, note_disk_there, note_disk_to_read, note_disk_when_free, note_doors, note_key,
};
use crate::tcp::TcpDoor;
use crate::world::{World, WorldFault};
use rtb_disk::{Disk, FileDisk};
use rtb_num::{Failed, List, Txt};
use std::alloc::{AllocError, Global};
use std::fs::{OpenOptions, TryLockError};
use std::net::{TcpListener, ToSocketAddrs};
use std::sync::Wait;
use std::time::Duration;
use std::{io, thread};

/// The network, the files and the clock of the system.
///
/// A file that is handed out to be written has the system's lock from before it is read until it is let go of, or its
/// process ends: no second process gets it so. Why a file or a door was not handed out is said on standard error.
#[derive(Drop)]
pub struct OsWorld<'r, R: Wait> {
    rt: &'r HostRuntime,
    // By which its doors wait for one another.
    waits: &'r R,
    asked: List<Asked>,
    faults: u64,
}

impl<'r, R: Wait + Sync> OsWorld<'r, R> {
    /// The world that the runtime gives. It was asked for nothing, and has met no fault.
    pub fn new(rt: &'r HostRuntime, waits: &'r R) -> OsWorld<'r, R>
        ensures asked { ⟦<OsWorld<'r, R> as World>⟧.asked result ≡ [] }
        ensures faults { ⟦<OsWorld<'r, R> as World>⟧.faults result ≡ 0 }
    {
        OsWorld {
            rt,
            waits,
            asked: List::new(rt.alloc()),
            faults: 0,
        }
    }
}

impl<'r, R: Wait> OsWorld<'r, R> {
    // Counts a fault.
    fn count_fault(&mut self)
        ensures counted { self.new.faults ≡ one_more self.old.faults }
        ensures kept { self.old.faults ≤ self.new.faults }
        ensures asked { self.new.asked ≡ self.old.asked }
    {
        self.faults = self.faults.saturating_add(1);
    }
}

impl<'r, R: Wait + Sync> World for OsWorld<'r, R> {
    type Door = TcpDoor<&'r HostRuntime, &'r R>;

    type Disk = FileDisk<'r>;

    ghost doors_left = { λ _. None };

    ghost disks_left = { λ _. None };

    ghost keys_left = { λ _. None };

    ghost asked = { λ w. w.asked };

    ghost faults = { λ w. w.faults };

    fn doors(
        &mut self,
        alloc: Global,
        address: &Txt,
        n: u32,
        patience: u64,
    ) -> Result<List<TcpDoor<&'r HostRuntime, &'r R>>, WorldFault> {
        note_doors(&mut self.asked, address, n, patience)?;
        let Some(listener) = listen(self.rt, address) else {
            self.count_fault();
            return Err(WorldFault::Failed);
        };
        match doors_over(alloc, self.rt, self.waits, listener, n, patience) {
            Err(WorldFault::Failed) => {
                self.count_fault();
                Err(WorldFault::Failed)
            }
            answer => answer,
        }
    }

    fn disk_to_read(&mut self, path: &Txt) -> Result<FileDisk<'r>, Failed> {
        if note_disk_to_read(&mut self.asked, path).is_ok() {
            if let Some(disk) = open_to_read(self.rt, path) {
                return Ok(disk);
            }
        }
        self.count_fault();
        Err(Failed)
    }

    fn disk(&mut self, path: &Txt) -> Result<FileDisk<'r>, Failed> {
        if note_disk(&mut self.asked, path).is_ok() {
            if let Some(disk) = open_alone(self.rt, path) {
                return Ok(disk);
            }
        }
        self.count_fault();
        Err(Failed)
    }

    fn disk_there(&mut self, path: &Txt) -> Result<FileDisk<'r>, Failed> {
        if note_disk_there(&mut self.asked, path).is_ok() {
            if let Some(disk) = open_there(self.rt, path) {
                return Ok(disk);
            }
        }
        self.count_fault();
        Err(Failed)
    }

    fn disk_when_free(&mut self, path: &Txt, ms: u64) -> Result<Option<FileDisk<'r>>, Failed> {
        match open_when_free(self.rt, path, ms) {
            Ok(None) => return Ok(None),
            Ok(Some(disk)) => {
                if note_disk_when_free(&mut self.asked, path, ms).is_ok() {
                    return Ok(Some(disk));
                }
            }
            Err(Failed) => {}
        }
        self.count_fault();
        Err(Failed)
    }

    fn key(&mut self, path: &Txt) -> Result<Txt, Failed> {
        if note_key(&mut self.asked, path).is_ok() {
            if let Some(text) = text_of_key(self.rt, path) {
                return Ok(text);
            }
        }
        self.count_fault();
        Err(Failed)
    }
}

// The first address of the name that can be listened at. Where there is none, it says why.
fn listen(rt: &HostRuntime, address: &Txt) -> Option<TcpListener> {
    let address = str::from_utf8(address.as_bytes()).ok()?;
    match listen_at(rt, address) {
        Ok(listener) => Some(listener),
        Err(fault) => {
            let _ = eprintln!(rt; "rtbx: {address}: {fault}");
            None
        }
    }
}

// As many links wait with the system as it allows.
fn listen_at(rt: &HostRuntime, address: &str) -> io::Result<TcpListener> {
    let mut answer = Err(io::Error::other("no address has this name"));
    for found in address.to_socket_addrs(rt)? {
        match mio::net::TcpListener::bind(rt, found) {
            Ok(listener) => return Ok(TcpListener::from(listener)),
            Err(fault) => answer = Err(fault),
        }
    }
    answer
}

// So many doors over the listener.
fn doors_over<'r, R: Wait>(
    alloc: Global,
    rt: &'r HostRuntime,
    waits: &'r R,
    listener: TcpListener,
    n: u32,
    patience: u64,
) -> Result<List<TcpDoor<&'r HostRuntime, &'r R>>, WorldFault>
    ensures { IfOk result (λ doors. length doors ≡ n) }
{
    let mut doors = List::new(alloc);
    if n == 0 {
        return Ok(doors);
    }
    let patience = Duration::from_millis(patience.max(1));
    let Ok(first) = TcpDoor::new(alloc, rt, listener, rt, waits, patience) else {
        return Err(WorldFault::Failed);
    };
    for _ in 1..n {
        let Ok(door) = first.beside(alloc, rt) else {
            return Err(WorldFault::Failed);
        };
        doors.push(door)?;
    }
    doors.push(first)?;
    Ok(doors)
}

// The file, made where it is missing, for this process alone.
fn open_alone<'r>(rt: &'r HostRuntime, path: &Txt) -> Option<FileDisk<'r>> {
    let path = str::from_utf8(path.as_bytes()).ok()?;
    FileDisk::open_alone(rt, path).ok()
}

// The same, where there is one with something in it.
fn open_there<'r>(rt: &'r HostRuntime, path: &Txt) -> Option<FileDisk<'r>> {
    let path = str::from_utf8(path.as_bytes()).ok()?;
    FileDisk::open_there(rt, path).ok()
}

// The file, where there is one, to be read alone.
fn open_to_read<'r>(rt: &'r HostRuntime, path: &Txt) -> Option<FileDisk<'r>> {
    let path = str::from_utf8(path.as_bytes()).ok()?;
    FileDisk::open_to_read(rt, path).ok()
}

// How many milliseconds it waits before it looks at a lock again.
const LOOK: u64 = 5;

// The file, which is there, for this process alone, once no other has it so. None where one has it still behind so many
// milliseconds.
fn open_when_free<'r>(
    rt: &'r HostRuntime,
    path: &Txt,
    ms: u64,
) -> Result<Option<FileDisk<'r>>, Failed> {
    for place in 0..ms / LOOK + 1 {
        if !is_taken(rt, path) {
            return open_free(rt, path);
        }
        pause(rt, ms - place * LOOK);
    }
    Ok(None)
}

// Waits as long as that, or until the lock is looked at again.
fn pause(rt: &HostRuntime, left: u64) {
    thread::sleep(rt, Duration::from_millis(left.min(LOOK)));
}

// The file, which nobody else had a moment ago. Who has taken it since is waited for as well.
fn open_free<'r>(rt: &'r HostRuntime, path: &Txt) -> Result<Option<FileDisk<'r>>, Failed> {
    match open_there(rt, path) {
        Some(disk) => Ok(Some(disk)),
        None if is_taken(rt, path) => Ok(None),
        None => Err(Failed),
    }
}

// Whether another has the lock of the file. No word is said of it, as where a disk is opened in vain.
fn is_taken(rt: &HostRuntime, path: &Txt) -> bool {
    let Ok(path) = str::from_utf8(path.as_bytes()) else {
        return false;
    };
    match OpenOptions::new().read(true).write(true).open(rt, path) {
        Ok(file) => matches!(file.try_lock(), Err(TryLockError::WouldBlock)),
        Err(_) => false,
    }
}

// As many bytes of a key's file are read: one more than a key has tells that it is too long.
const KEY_ROOM: usize = 65;

// The first bytes of the file, which is only read. Where it cannot be, it says why, as where they are no key.
fn text_of_key(rt: &HostRuntime, path: &Txt) -> Option<Txt>
    ensures { IfSome result (λ text. length text ≤ 65) }
{
    let mut bytes = [0; KEY_ROOM];
    let count = read_front(rt, path, &mut bytes)?;
    if !is_key_length(count) {
        complain(rt, path, "a key has 32 to 64 bytes");
    }
    Txt::from_slice(rt.alloc(), &bytes[..count]).ok()
}

// A key has 32 to 64 bytes.
fn is_key_length(count: usize) -> bool {
    32 <= count && count <= 64
}

// Moves the first bytes of the file to the front of `out`, and tells how many. What is no file, as a folder or a pipe,
// is not opened.
fn read_front(rt: &HostRuntime, path: &Txt, out: &mut [u8]) -> Option<usize>
    ensures { IfSome result (λ n. n ≤ length out.new) }
{
    let mut disk = open_to_read(rt, path)?;
    let before = disk.length().ok();
    let count = disk.read(0, out).ok();
    let after = disk.length().ok();
    drop(disk);
    if before != after {
        complain(rt, path, "it changed while it was read");
        return None;
    }
    count
}

// Says what is wrong with the file.
fn complain(rt: &HostRuntime, path: &Txt, why: &str) {
    if let Ok(path) = str::from_utf8(path.as_bytes()) {
        let _ = eprintln!(rt; "rtbx: {path}: {why}");
    }
}
