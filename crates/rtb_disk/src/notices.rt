//! What is said on standard error of a file that fails, and of one that is mended.
use std::alloc::AllocError;
use std::io;
use std::time::{Duration, Instant};

/// Between two failures that are told there are so many seconds at least, so that no message makes a line.
const SECONDS: u64 = 10;

/// So many syncs in a row succeed where a block is written whole.
const WHOLE: u32 = 2;

/// What is said on standard error of a file: the first failure, with its cause, and that it is mended.
#[derive(Drop)]
pub(crate) struct Notices<'r> {
    rt: &'r HostRuntime,
    path: String,
    // When a failure was told last, and whether it is not mended since.
    told: Option<Instant>,
    is_broken: bool,
    // How many syncs succeeded since the last failure.
    syncs: u32,
}

impl<'r> Notices<'r> {
    /// Of the file with this name nothing was said yet.
    pub(crate) fn new(rt: &'r HostRuntime, path: &str) -> Result<Notices<'r>, AllocError> {
        let path = String::from_str(rt.alloc(), path)?;
        Ok(Notices {
            rt,
            path,
            told: None,
            is_broken: false,
            syncs: 0,
        })
    }

    pub(crate) fn runtime(&self) -> &'r HostRuntime {
        self.rt
    }

    pub(crate) fn path(&self) -> &str {
        self.path.as_str()
    }

    /// A call failed. It is told where none was told that is not mended, and none so soon before.
    pub(crate) fn failed(&mut self, fault: &io::Error) {
        self.syncs = 0;
        if self.is_broken {
            return;
        }
        let now = Instant::now(self.rt).ok();
        if is_soon(self.told, now) {
            return;
        }
        self.told = now;
        self.is_broken = true;
        say(self.rt, self.path.as_str(), fault);
    }

    /// A sync succeeded: behind a failure that was told, and behind a whole block, it is told that it is mended.
    pub(crate) fn synced(&mut self) {
        if !self.is_broken {
            return;
        }
        self.syncs = self.syncs.saturating_add(1);
        if self.syncs >= WHOLE {
            self.is_broken = false;
            let path = self.path.as_str();
            let _ = eprintln!(self.rt; "rtbx: {path}: it is written again");
        }
    }
}

// Whether it was told so soon before that it is not told again. Where the clock cannot be read it is told.
fn is_soon(told: Option<Instant>, now: Option<Instant>) -> bool {
    match (told, now) {
        (Some(told), Some(now)) => now.duration_since(told) < Duration::from_secs(SECONDS),
        _ => false,
    }
}

/// Says why of the file with this name, where standard error can be written.
pub(crate) fn say(rt: &HostRuntime, path: &str, why: &io::Error) {
    let _ = eprintln!(rt; "rtbx: {path}: {why}");
}
