//! What a writer knows of its file, and the look by which it sees that others took it away.
use std::fs::{self, File, Metadata};
use std::io;
use std::os::unix::fs::MetadataExt;

/// Which file is open, and how long it is: from the least to the most, which differ where a change failed.
#[derive(Clone, Copy)]
pub(crate) struct Known {
    device: u64,
    number: u64,
    least: u64,
    most: u64,
}

impl Known {
    /// What is known of the open file.
    pub(crate) fn of(file: &File) -> io::Result<Known> {
        let found = file.metadata()?;
        Ok(Known {
            device: found.dev(),
            number: found.ino(),
            least: found.len(),
            most: found.len(),
        })
    }

    pub(crate) fn is_empty(&self) -> bool {
        self.most == 0
    }

    /// Looks whether the name leads to the file still, and whether nobody else made it longer or shorter. A file that
    /// was deleted or renamed has not got its name, and what is written to it is lost or lies elsewhere.
    pub(crate) fn look(&self, rt: &HostRuntime, path: &str) -> io::Result<()> {
        let found = fs::metadata(rt, path)?;
        if !self.is_of(&found) {
            return Err(io::Error::other("another file has the journal's name"));
        }
        if found.len() < self.least || self.most < found.len() {
            return Err(io::Error::other("others made the journal longer or shorter"));
        }
        Ok(())
    }

    fn is_of(&self, found: &Metadata) -> bool {
        found.dev() == self.device && found.ino() == self.number
    }

    /// A write up to this place was made, or failed and was made in part.
    pub(crate) fn write_to(&mut self, end: u64, is_done: bool) {
        self.most = self.most.max(end);
        if is_done {
            self.least = self.least.max(end);
        }
    }

    /// A cut to so many bytes was made, or failed.
    pub(crate) fn cut_to(&mut self, count: u64, is_done: bool) {
        self.least = self.least.min(count);
        self.most = self.most.max(count);
        if is_done {
            self.least = count;
            self.most = count;
        }
    }
}
