//! A piece of the disk, and the blocks in it.
ghost use Rattle.std.specs.Prelude.{◌≡◌, ◌+◌, ◌<◌, ◌≤◌, ◌^◌, ◌++◌, ℕ, List, None, Ok, Some, IfOk, IfSome, OnErr, length, drop, take, true};
ghost use Rattle.rtb_base.specs.Faults.{CountsErrors};
ghost use Rattle.journal_file.specs.Damage.{HasBlock, IsBlockAt};
ghost use Rattle.journal_file.specs.Pieces.{BeginsFrom};

use crate::at_gates::is_one;
use byte_fields::get_eight;
use rtb_disk::Disk;
use rtb_num::{Failed, Txt};
use std::alloc::AllocError;

// How many bytes of a disk are read in one call.
const PIECE: usize = 65536;

// The last place from which a piece is read.
const LAST: u64 = (1 << 63) - 65_537;

// Bytes of a disk that were read in one call, so that small blocks need no call each.
#[derive(Drop)]
pub(crate) struct Piece {
    pub(crate) bytes: [u8; PIECE],
    pub(crate) count: usize,
    pub(crate) place: u64,
    ghost few: { count ≤ 65536 },
    ghost low: { place + 65536 < 2 ^ 63 },
}

impl Piece {
    // The piece of no bytes.
    pub(crate) fn empty() -> Piece
        ensures { (reads : List ℕ) → BeginsFrom result.place (take result.count result.bytes) reads }
    {
        Piece {
            bytes: [0; PIECE],
            count: 0,
            place: 0,
        }
    }

    // Reads from the place on, in place of what it has.
    pub(crate) fn fill<D: Disk>(&mut self, disk: &mut D, place: u64) -> Result<(), Failed>
        ensures held { (D.store disk.old).told ≡ true → BeginsFrom self.new.place (take self.new.count self.new.bytes) (D.store disk.old).reads }
        ensures same { D.store disk.new ≡ D.store disk.old }
        ensures cause { CountsErrors (D.faults disk.old) (D.faults disk.new) result }
    {
        self.count = 0;
        if place > LAST {
            return Ok(());
        }
        self.place = place;
        self.count = disk.read(place, &mut self.bytes)?;
        Ok(())
    }

    // What it has from the place on.
    fn from(&self, place: u64) -> &[u8]
        ensures front { (reads : List ℕ) → BeginsFrom self.now.place (take self.now.count self.now.bytes) reads → BeginsFrom place result.now reads }
        ensures bound { place < 2 ^ 63 → place + length result.now ≤ 2 ^ 63 }
    {
        match place.checked_sub(self.place) {
            Some(n) if n < self.count as u64 => &self.bytes[n as usize..self.count],
            _ => &[],
        }
    }

    // The block at the gate, where it and the next gate are all in the piece: appends its payload and gives
    // the place of the next gate. None where the piece does not tell.
    pub(crate) fn block(&self, gate: u64, out: &mut Txt) -> Result<Option<u64>, AllocError>
        requires low { gate < 2 ^ 63 }
        ensures block { (reads : List ℕ) → BeginsFrom self.now.place (take self.now.count self.now.bytes) reads → IfOk result (λ found. IfSome found (λ next. IsBlockAt gate (drop gate reads) out.old out.new (Ok (Some next)))) }
        ensures inside { (reads : List ℕ) → BeginsFrom self.now.place (take self.now.count self.now.bytes) reads → IfOk result (λ found. IfSome found (λ next. next < length reads)) }
        ensures bound { IfOk result (λ found. IfSome found (λ next. next < 2 ^ 63)) }
        ensures appended { IfOk result (λ found. IfSome found (λ next. (more : List ℕ) × (out.new ≡ out.old ++ more) × (next ≡ gate + 9 + length more))) }
        ensures none { result ≡ Ok None → out.new ≡ out.old }
        ensures kept { OnErr result (out.new ≡ out.old) }
    {
        match payload_of(self.from(gate)) {
            Some(payload) => {
                out.extend(payload)?;
                Ok(Some(gate + 9 + payload.len() as u64))
            }
            None => Ok(None),
        }
    }
}

// The payload of the block behind an open gate, where these bytes begin with both and the next gate.
fn payload_of(bytes: &[u8]) -> Option<&[u8]>
    ensures { IfSome result (λ payload. HasBlock payload.now bytes.now) }
{
    if !is_one(bytes) {
        return None;
    }
    let (size, start) = get_eight(bytes, 1)?;
    let rest = &bytes[start..];
    if size >= rest.len() as u64 {
        return None;
    }
    Some(&rest[..size as usize])
}
