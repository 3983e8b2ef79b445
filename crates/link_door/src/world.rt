//! The outside of a program: where its doors, disks and keys come from.
ghost use Rattle.std.specs.Prelude.{◌≡◌, ◌<◌, ◌≤◌, ℕ, ◌∷◌, [], Err, true, length, List, Option, IfOk, MatchResult};
ghost use Rattle.rtb_base.specs.Faults.{CountsErrors, RisesOnlyWhere, RoseAtMost};
ghost use Rattle.std.specs.Option.{option_to_list};
ghost use Rattle.link_door.specs.Worlds.{Asks, AsksAgain, HandsOut};
ghost use Rattle.link_door.specs.declared.asked.Asked.{Asked};
ghost use Rattle.link_door.specs.declared.asked.Asked.TheVariants as asked_for;
ghost use Rattle.link_door.specs.declared.world.WorldFault.TheVariants.{Memory as memory};

use crate::door::Door;
use rtb_disk::Disk;
use rtb_num::{Failed, List, Txt};
use std::alloc::{AllocError, Global};
use thiserror::Error;

/// Why doors were not made.
#[derive(Clone, Copy, Debug, Error)]
pub enum WorldFault {
    /// The world failed.
    #[error("the world failed")]
    Failed,
    /// Memory was refused.
    #[error("memory ran out")]
    Memory,
}

impl From<AllocError> for WorldFault {
    ghost from_gives = { λ _ e. e ≡ memory };

    fn from(_: AllocError) -> WorldFault {
        WorldFault::Memory
    }
}

/// The outside of a program: where its doors, disks and keys come from.
pub trait World {
    type Door: Door + Drop + Send;

    type Disk: Disk + Send;

    // The doors, the disks and the texts of keys that are left, where that is known.
    ghost doors_left: { Self → Option (List Self.Door) };

    ghost disks_left: { Self → Option (List Self.Disk) };

    ghost keys_left: { Self → Option (List (List ℕ)) };

    // What it was asked for so far, in order.
    ghost asked: { Self → List Asked };

    // How many calls failed so far, up to the greatest number of 64 bits.
    ghost faults: { Self → ℕ };

    /// So many doors, which share an address. `address` is a name or a number of a host and a port, as
    /// `127.0.0.1:8080`. Their links fail where a peer takes longer than `patience`, in milliseconds, 1 at least.
    fn doors(
        &mut self,
        alloc: Global,
        address: &Txt,
        n: u32,
        patience: u64,
    ) -> Result<List<Self::Door>, WorldFault>
        ensures count { IfOk result (λ doors. length doors ≡ n) }
        ensures doors { MatchResult result (HandsOut (doors_left self.old) (doors_left self.new)) (λ _. doors_left self.new ≡ doors_left self.old) }
        ensures disks { disks_left self.new ≡ disks_left self.old }
        ensures keys { keys_left self.new ≡ keys_left self.old }
        ensures asks { Asks (asked self.old) (asked self.new) (asked_for.Doors address.now n patience) result }
        ensures cause { RisesOnlyWhere (result ≡ Err WorldFault.Failed) (faults self.old) (faults self.new) }
        ensures once { RoseAtMost 1 (faults self.old) (faults self.new) };

    /// The disk with this name, where there is one, to be read alone: none is made.
    fn disk_to_read(&mut self, path: &Txt) -> Result<Self::Disk, Failed>
        ensures disks { MatchResult result (λ disk. HandsOut (disks_left self.old) (disks_left self.new) (disk ∷ [])) (λ _. disks_left self.new ≡ disks_left self.old) }
        ensures doors { doors_left self.new ≡ doors_left self.old }
        ensures keys { keys_left self.new ≡ keys_left self.old }
        ensures asks { Asks (asked self.old) (asked self.new) (asked_for.DiskToRead path.now) result }
        ensures cause { CountsErrors (faults self.old) (faults self.new) result };

    /// The disk with this name.
    fn disk(&mut self, path: &Txt) -> Result<Self::Disk, Failed>
        ensures disks { MatchResult result (λ disk. HandsOut (disks_left self.old) (disks_left self.new) (disk ∷ [])) (λ _. disks_left self.new ≡ disks_left self.old) }
        ensures doors { doors_left self.new ≡ doors_left self.old }
        ensures keys { keys_left self.new ≡ keys_left self.old }
        ensures asks { Asks (asked self.old) (asked self.new) (asked_for.Disk path.now) result }
        ensures cause { CountsErrors (faults self.old) (faults self.new) result };

    /// The disk with this name, where there is one with something in it: none is made.
    fn disk_there(&mut self, path: &Txt) -> Result<Self::Disk, Failed>
        ensures long { IfOk result (λ disk. (Self.Disk.store disk).told ≡ true → 0 < length (Self.Disk.store disk).reads) }
        ensures disks { MatchResult result (λ disk. HandsOut (disks_left self.old) (disks_left self.new) (disk ∷ [])) (λ _. disks_left self.new ≡ disks_left self.old) }
        ensures doors { doors_left self.new ≡ doors_left self.old }
        ensures keys { keys_left self.new ≡ keys_left self.old }
        ensures asks { Asks (asked self.old) (asked self.new) (asked_for.DiskThere path.now) result }
        ensures cause { CountsErrors (faults self.old) (faults self.new) result };

    /// The disk with this name, which is there with something in it, once nobody else has it to be written, for which it waits
    /// so many milliseconds at most. None where another has it still.
    fn disk_when_free(&mut self, path: &Txt, ms: u64) -> Result<Option<Self::Disk>, Failed>
        ensures disks { MatchResult result (λ disk. HandsOut (disks_left self.old) (disks_left self.new) (option_to_list disk)) (λ _. disks_left self.new ≡ disks_left self.old) }
        ensures doors { doors_left self.new ≡ doors_left self.old }
        ensures keys { keys_left self.new ≡ keys_left self.old }
        ensures asks { AsksAgain (asked self.old) (asked self.new) (asked_for.DiskWhenFree path.now ms) result }
        ensures cause { CountsErrors (faults self.old) (faults self.new) result };

    /// The text of the key with this name: its first 65 bytes at most, one more than a key has.
    fn key(&mut self, path: &Txt) -> Result<Txt, Failed>
        ensures keys { MatchResult result (λ text. HandsOut (keys_left self.old) (keys_left self.new) (text ∷ [])) (λ _. keys_left self.new ≡ keys_left self.old) }
        ensures most { IfOk result (λ text. length text ≤ 65) }
        ensures doors { doors_left self.new ≡ doors_left self.old }
        ensures disks { disks_left self.new ≡ disks_left self.old }
        ensures asks { Asks (asked self.old) (asked self.new) (asked_for.Key path.now) result }
        ensures cause { CountsErrors (faults self.old) (faults self.new) result };
}
