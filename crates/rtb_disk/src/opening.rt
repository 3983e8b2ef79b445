//! Files opened, once each: to be written by this process alone, or to be read.
use crate::known::Known;
use std::fs::{self, File, OpenOptions, TryLockError};
use std::io;

/// What is to be opened.
#[derive(Clone, Copy)]
pub(crate) enum Wanted {
    /// A file, which is made where it is missing.
    MadeWhereMissing,
    /// A file that is there, with something in it.
    There,
}

/// The file with this name, which this process alone writes, and its folder synced.
///
/// The file is opened once and locked through that very descriptor. Behind the lock its name leads to it still: a rename
/// between the two would leave the lock on another file than the name's.
pub(crate) fn open_alone(
    rt: &HostRuntime,
    path: &str,
    wanted: Wanted,
) -> io::Result<(File, Known)> {
    refuse_no_file(rt, path)?;
    let makes = matches!(&wanted, Wanted::MadeWhereMissing);
    let file = OpenOptions::new()
        .read(true)
        .write(true)
        .create(makes)
        .open(rt, path)?;
    lock(&file)?;
    let known = Known::of(&file)?;
    known.look(rt, path)?;
    if !makes && known.is_empty() {
        return Err(io::Error::other("the journal is empty"));
    }
    File::open(rt, folder_of(path))?.sync_all()?;
    Ok((file, known))
}

/// The file with this name, to be read.
pub(crate) fn open_to_read(rt: &HostRuntime, path: &str) -> io::Result<(File, Known)> {
    refuse_no_file(rt, path)?;
    let file = File::open(rt, path)?;
    let known = Known::of(&file)?;
    Ok((file, known))
}

// Locks the file for this descriptor alone.
fn lock(file: &File) -> io::Result<()> {
    match file.try_lock() {
        Ok(()) => Ok(()),
        Err(TryLockError::WouldBlock) => Err(io::Error::other(
            "the file is open to be written already, locked by another process",
        )),
        Err(TryLockError::Error(fault)) => Err(fault),
    }
}

// Refuses a name of something else than a file, as a folder, a pipe, at which opening would wait, or a device.
fn refuse_no_file(rt: &HostRuntime, path: &str) -> io::Result<()> {
    match fs::metadata(rt, path) {
        Ok(found) if !found.is_file() => Err(io::Error::other("this is no file")),
        _ => Ok(()),
    }
}

// The folder of the file with this name.
fn folder_of(path: &str) -> &str {
    match path.rsplit_once("/") {
        Some(("", _)) => "/",
        Some((folder, _)) => folder,
        None => ".",
    }
}
