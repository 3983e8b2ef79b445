//! A block written, and its gate opened behind it.
ghost use Rattle.std.specs.Prelude.{◌≡◌, [], ◌∷◌, ◌++◌, ◌+◌, ◌<◌, ◌≤◌, ◌^◌, List, ℕ, length, true, OnOk, OnErr};
ghost use Rattle.rtb_base.specs.Faults.{CountsErrors};
ghost use Rattle.rtb_disk.specs.Stores.{EachImage, Always, Fails, changed, overwritten, settled, write};
ghost use Rattle.byte_fields.specs.Encodings.{eight_bytes};
ghost use Rattle.journal_file.specs.Blocks.{HasBlocks, HasBehind, end_of};

use crate::steps::write_synced;
use rtb_disk::Disk;
use rtb_num::Failed;

// Writes the block behind the closed gate, and a closed gate behind the block, all in one, and syncs.
pub(crate) fn write_block<D: Disk>(disk: &mut D, gate: u64, block: &[u8]) -> Result<(), Failed>
    requires small { gate < 2 ^ 63 }
    requires inside { (D.store disk.old).told ≡ true → gate < length (D.store disk.old).reads }
    ensures longer { (D.store disk.new).told ≡ true → length (D.store disk.old).reads ≤ length (D.store disk.new).reads }
    ensures told { (D.store disk.new).told ≡ (D.store disk.old).told }
    ensures kept { (D.store disk.old).told ≡ true → (names payloads : List (List ℕ)) → gate ≡ end_of payloads → EachImage (HasBlocks names payloads) (D.store disk.old).now → Always (HasBlocks names payloads) (D.store disk.old) (D.store disk.new) }
    ensures behind { (D.store disk.old).told ≡ true → (names payloads : List (List ℕ)) → gate ≡ end_of payloads → EachImage (HasBlocks names payloads) (D.store disk.old).now → OnOk result (EachImage (HasBehind names payloads block.now) (D.store disk.new).now) }
    ensures bound { OnOk result (gate + length block.now + 10 < 2 ^ 63) }
    ensures long { (D.store disk.old).told ≡ true → OnOk result (gate + length block.now + 9 < length (D.store disk.new).reads) }
    ensures cause { CountsErrors (D.faults disk.old) (D.faults disk.new) result }
{
    let size = block.len() as u64;
    write_parts_synced(disk, gate + 1, &size_bytes(size), block, &[0])?;
    Ok(())
}

// Writes head, body and tail at the place, one behind the other, as one write, and syncs.
fn write_parts_synced<D: Disk>(
    disk: &mut D,
    place: u64,
    head: &[u8],
    body: &[u8],
    tail: &[u8],
) -> Result<(), Failed>
    requires inside { (D.store disk.old).told ≡ true → place ≤ length (D.store disk.old).reads }
    ensures done { (D.store disk.old).told ≡ true → OnOk result (D.store disk.new ≡ settled (changed (write place (length (head.now ++ body.now ++ tail.now))) (overwritten (D.store disk.old).reads place (head.now ++ body.now ++ tail.now)) (D.store disk.old))) }
    ensures failed { (D.store disk.old).told ≡ true → OnErr result (Fails (write place (length (head.now ++ body.now ++ tail.now))) (D.store disk.old) (D.store disk.new)) }
    ensures bound { OnOk result (place + length (head.now ++ body.now ++ tail.now) < 2 ^ 63) }
    ensures told { (D.store disk.new).told ≡ (D.store disk.old).told }
    ensures cause { CountsErrors (D.faults disk.old) (D.faults disk.new) result }
{
    disk.write_parts(place, head, body, tail)?;
    disk.sync()?;
    Ok(())
}

// The number in eight bytes, the greatest place first.
#[tactic(auto, unfolding(byte_fields::specs::Encodings::eight_bytes))]
pub(crate) fn size_bytes(n: u64) -> [u8; 8]
    ensures { result ≡ eight_bytes n }
{
    n.to_be_bytes()
}

// Opens the gate before a block that stands there whole, and syncs.
pub(crate) fn open_gate<D: Disk>(disk: &mut D, gate: u64) -> Result<(), Failed>
    requires inside { (D.store disk.old).told ≡ true → gate < length (D.store disk.old).reads }
    ensures longer { (D.store disk.new).told ≡ true → length (D.store disk.old).reads ≤ length (D.store disk.new).reads }
    ensures told { (D.store disk.new).told ≡ (D.store disk.old).told }
    ensures kept { (D.store disk.old).told ≡ true → (names payloads : List (List ℕ)) → (block : List ℕ) → gate ≡ end_of payloads → EachImage (HasBehind names payloads block) (D.store disk.old).now → Always (HasBehind names payloads block) (D.store disk.old) (D.store disk.new) }
    ensures opened { (D.store disk.old).told ≡ true → (names payloads : List (List ℕ)) → (block : List ℕ) → gate ≡ end_of payloads → EachImage (HasBehind names payloads block) (D.store disk.old).now → OnOk result (EachImage (HasBlocks names (payloads ++ block ∷ [])) (D.store disk.new).now) }
    ensures cause { CountsErrors (D.faults disk.old) (D.faults disk.new) result }
{
    write_synced(disk, gate, &[1])?;
    Ok(())
}
