//! The bytes of a disk in memory, written, cut and made again.
ghost use Rattle.std.specs.Prelude.{◌≡◌, take, IfOk, OnOk, OnErr};
ghost use Rattle.rtb_disk.specs.Record.{all_done, done, part, written};
ghost use Rattle.rtb_disk.specs.Crashes.{by_bit, next_pick, with_picked};

use crate::calls::{Call, Made};
use rtb_num::Txt;
use std::alloc::{AllocError, Global};
use std::marker::Model;

// The bytes of a disk in memory, which are written over where they lie.
#[derive(Drop)]
pub(crate) struct Bytes {
    items: Vec<u8>,
}

impl Model for Bytes {
    ghost use Rattle.std.specs.Prelude.{List, ℕ};

    ghost Value = { List ℕ };

    ghost view = { λ b. b.items.items };
}

impl Bytes {
    pub(crate) fn of(alloc: Global, bytes: &[u8]) -> Result<Bytes, AllocError>
        ensures { IfOk result (λ b. b ≡ bytes.now) }
    {
        let mut items = Vec::new(alloc);
        items.extend_from_slice(bytes)?;
        Ok(Bytes { items })
    }

    pub(crate) fn into_text(self) -> Txt
        ensures { result ≡ self }
    {
        Txt::from_vec(self.items)
    }

    pub(crate) fn as_slice(&self) -> &[u8]
        ensures { result.now ≡ self.now }
    {
        self.items.as_slice()
    }

    // Writes these at the place. Where that leaves a gap, the gap is filled with zeros.
    fn write(&mut self, place: usize, bytes: &[u8]) -> Result<(), AllocError>
        ensures ok { OnOk result (self.new ≡ written place bytes.now self.old) }
        ensures err { OnErr result (self.new ≡ self.old) }
    {
        let end = match place.checked_add(bytes.len()) {
            Some(end) => end,
            None => return Err(AllocError),
        };
        let long = end.max(self.items.len());
        self.items.resize(long, 0)?;
        self.items[place..end].copy_from_slice(bytes);
        Ok(())
    }

    fn cut(&mut self, count: usize)
        ensures { self.new ≡ take count self.old }
    {
        self.items.truncate(count);
    }

    // Does a call, as far as it is done.
    pub(crate) fn redo(&mut self, made: &Made) -> Result<(), AllocError>
        ensures ok { OnOk result (self.new ≡ done made.now.call made.now.failed self.old) }
        ensures err { OnErr result (self.new ≡ self.old) }
    {
        match &made.call {
            Call::Write { place, bytes } => {
                self.write(*place as usize, part_of(bytes.as_bytes(), made.failed))
            }
            Call::Cut { count } => {
                if !made.failed {
                    self.cut(*count as usize);
                }
                Ok(())
            }
            Call::Length | Call::Read { .. } | Call::Sync => Ok(()),
        }
    }

    // Does calls, one after the other.
    pub(crate) fn redo_all(&mut self, made: &[Made]) -> Result<(), AllocError>
        ensures { OnOk result (self.new ≡ all_done made.now self.old) }
    {
        for one in made {
            self.redo(one)?;
        }
        Ok(())
    }

    // Does those of the writes and cuts whose bits are set, the first by the lowest bit.
    pub(crate) fn redo_picked(&mut self, made: &[Made], pick: u64) -> Result<(), AllocError>
        ensures { OnOk result (self.new ≡ with_picked pick made.now self.old) }
    {
        let mut left = pick;
        for one in made {
            left = self.redo_by_bit(one, left)?;
        }
        Ok(())
    }

    // Does a call where it is a write or a cut and the lowest bit is set. Gives the bits for the calls
    // behind it.
    fn redo_by_bit(&mut self, made: &Made, pick: u64) -> Result<u64, AllocError>
        ensures left { IfOk result (λ left. left ≡ next_pick pick made.now) }
        ensures bytes { OnOk result (self.new ≡ by_bit pick made.now self.old) }
    {
        if !made.changes() {
            return Ok(pick);
        }
        if pick % 2 == 1 {
            self.redo(made)?;
        }
        Ok(pick / 2)
    }
}

// As many of the bytes as a write does: all, or the first half where it fails.
fn part_of(bytes: &[u8], failed: bool) -> &[u8]
    ensures { result.now ≡ part failed bytes.now }
{
    if failed {
        &bytes[..bytes.len() / 2]
    } else {
        bytes
    }
}
