//! What a world was asked for.
ghost use Rattle.std.specs.Prelude.{◌≡◌, ◌++◌, ◌∷◌, [], OnErr, OnOk};
ghost use Rattle.link_door.specs.declared.asked.Asked.TheVariants as asked_for;

use rtb_num::{List, Txt};
use std::alloc::AllocError;

/// What a world was asked for.
#[derive(Drop)]
pub enum Asked {
    /// The disk with this name.
    Disk { path: Txt },
    /// The same, where there is one with something in it.
    DiskThere { path: Txt },
    /// The same, to be read alone.
    DiskToRead { path: Txt },
    /// The same, which is there, once nobody else writes it, waited for at most so many milliseconds a call.
    DiskWhenFree { path: Txt, ms: u64 },
    /// So many doors at this address, whose links wait for their peers so many milliseconds.
    Doors { address: Txt, n: u32, patience: u64 },
    /// The text of the key with this name.
    Key { path: Txt },
}

/// Notes that a disk is asked for. Where memory is refused the list is as it was.
pub(crate) fn note_disk(asked: &mut List<Asked>, path: &Txt) -> Result<(), AllocError>
    ensures ok { OnOk result (asked.new ≡ asked.old ++ asked_for.Disk path.now ∷ []) }
    ensures err { OnErr result (asked.new ≡ asked.old) }
{
    let path = path.copy()?;
    asked.push(Asked::Disk { path })
}

/// Notes that a disk is asked for that is there. Where memory is refused the list is as it was.
pub(crate) fn note_disk_there(asked: &mut List<Asked>, path: &Txt) -> Result<(), AllocError>
    ensures ok { OnOk result (asked.new ≡ asked.old ++ asked_for.DiskThere path.now ∷ []) }
    ensures err { OnErr result (asked.new ≡ asked.old) }
{
    let path = path.copy()?;
    asked.push(Asked::DiskThere { path })
}

/// Notes that a disk is asked for, to be read alone. Where memory is refused the list is as it was.
pub(crate) fn note_disk_to_read(asked: &mut List<Asked>, path: &Txt) -> Result<(), AllocError>
    ensures ok { OnOk result (asked.new ≡ asked.old ++ asked_for.DiskToRead path.now ∷ []) }
    ensures err { OnErr result (asked.new ≡ asked.old) }
{
    let path = path.copy()?;
    asked.push(Asked::DiskToRead { path })
}

/// Notes that a disk is asked for that nobody else writes. Where memory is refused the list is as it was.
pub(crate) fn note_disk_when_free(
    asked: &mut List<Asked>,
    path: &Txt,
    ms: u64,
) -> Result<(), AllocError>
    ensures ok { OnOk result (asked.new ≡ asked.old ++ asked_for.DiskWhenFree path.now ms ∷ []) }
    ensures err { OnErr result (asked.new ≡ asked.old) }
{
    let path = path.copy()?;
    asked.push(Asked::DiskWhenFree { path, ms })
}

/// Notes that the text of a key is asked for. Where memory is refused the list is as it was.
pub(crate) fn note_key(asked: &mut List<Asked>, path: &Txt) -> Result<(), AllocError>
    ensures ok { OnOk result (asked.new ≡ asked.old ++ asked_for.Key path.now ∷ []) }
    ensures err { OnErr result (asked.new ≡ asked.old) }
{
    let path = path.copy()?;
    asked.push(Asked::Key { path })
}

/// Notes that doors are asked for. Where memory is refused the list is as it was.
pub(crate) fn note_doors(
    asked: &mut List<Asked>,
    address: &Txt,
    n: u32,
    patience: u64,
) -> Result<(), AllocError>
    ensures ok { OnOk result (asked.new ≡ asked.old ++ asked_for.Doors address.now n patience ∷ []) }
    ensures err { OnErr result (asked.new ≡ asked.old) }
{
    let address = address.copy()?;
    asked.push(Asked::Doors {
        address,
        n,
        patience,
    })
}
