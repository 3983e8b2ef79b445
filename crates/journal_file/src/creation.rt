//! A journal created on an empty disk.
ghost use Rattle.std.specs.Prelude.{◌≡◌, ◌<◌, ◌≤◌, [], ◌∷◌, length, true, OnOk};
ghost use Rattle.rtb_base.specs.Faults.{CountsErrors};
ghost use Rattle.rtb_disk.specs.Stores.{Always, EachImage};
ghost use Rattle.journal_file.specs.Blocks.{HasBlocks, IsTornCreation, StandsFor, created_name};
ghost use Rattle.journal_file.specs.Creations.{IsUnopened};

use crate::steps::write_synced;
use rtb_disk::Disk;
use rtb_num::Failed;

// Writes the name and a closed gate behind a file gate that is not open, and opens it.
fn name_and_open<D: Disk>(disk: &mut D) -> Result<(), Failed>
    requires inside { (D.store disk.old).told ≡ true → 1 ≤ length (D.store disk.old).reads }
    ensures long { (D.store disk.old).told ≡ true → OnOk result (8 < length (D.store disk.new).reads) }
    ensures kept { (D.store disk.old).told ≡ true → EachImage IsUnopened (D.store disk.old).now → Always (StandsFor (created_name ∷ []) []) (D.store disk.old) (D.store disk.new) }
    ensures opened { (D.store disk.old).told ≡ true → EachImage IsUnopened (D.store disk.old).now → OnOk result (EachImage (HasBlocks (created_name ∷ []) []) (D.store disk.new).now) }
    ensures told { (D.store disk.new).told ≡ (D.store disk.old).told }
    ensures cause { CountsErrors (D.faults disk.old) (D.faults disk.new) result }
{
    write_synced(disk, 1, b"RTBXJ01\0")?;
    write_synced(disk, 0, &[1])?;
    Ok(())
}

// Makes a journal without blocks of a file that is too short for one.
fn create_anew<D: Disk>(disk: &mut D) -> Result<(), Failed>
    ensures long { (D.store disk.old).told ≡ true → OnOk result (8 < length (D.store disk.new).reads) }
    ensures kept { (D.store disk.old).told ≡ true → EachImage (λ image. length image < 9) (D.store disk.old).now → Always (StandsFor (created_name ∷ []) []) (D.store disk.old) (D.store disk.new) }
    ensures opened { (D.store disk.old).told ≡ true → EachImage (λ image. length image < 9) (D.store disk.old).now → OnOk result (EachImage (HasBlocks (created_name ∷ []) []) (D.store disk.new).now) }
    ensures told { (D.store disk.new).told ≡ (D.store disk.old).told }
    ensures cause { CountsErrors (D.faults disk.old) (D.faults disk.new) result }
{
    write_synced(disk, 0, &[0])?;
    name_and_open(disk)
}

// Makes a journal without blocks of a creation that was not finished, which has this size.
pub(crate) fn create<D: Disk>(disk: &mut D, size: u64) -> Result<(), Failed>
    requires size { (D.store disk.old).told ≡ true → size ≡ length (D.store disk.old).reads }
    ensures long { (D.store disk.old).told ≡ true → OnOk result (8 < length (D.store disk.new).reads) }
    ensures kept { (D.store disk.old).told ≡ true → EachImage (λ image. image ≡ (D.store disk.old).reads) (D.store disk.old).now → IsTornCreation (D.store disk.old).reads → Always (StandsFor (created_name ∷ []) []) (D.store disk.old) (D.store disk.new) }
    ensures opened { (D.store disk.old).told ≡ true → EachImage (λ image. image ≡ (D.store disk.old).reads) (D.store disk.old).now → IsTornCreation (D.store disk.old).reads → OnOk result (EachImage (HasBlocks (created_name ∷ []) []) (D.store disk.new).now) }
    ensures told { (D.store disk.new).told ≡ (D.store disk.old).told }
    ensures cause { CountsErrors (D.faults disk.old) (D.faults disk.new) result }
{
    if size < 9 {
        return create_anew(disk);
    }
    name_and_open(disk)
}
