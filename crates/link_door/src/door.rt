//! A door, through which links come, and which tells the time.
ghost use Rattle.std.specs.Prelude.{◌≡◌, ℕ, Option, Some, IfSome, slice_get};
ghost use Rattle.std.specs.Option.{option_map};
ghost use Rattle.rtb_base.specs.Faults.{CountsErrors};
ghost use Rattle.link_door.specs.Doors.{GivesLink, Held, with_later, with_served};

use crate::link::Link;
use rtb_num::Failed;

/// A door, through which links come, one after the other, and which tells the time.
pub trait Door {
    type Link: Link + Send;

    // What it holds, where that is known.
    ghost held: { Self → Option (Held Self.Link) };

    // How many calls failed so far, up to the greatest number of 64 bits.
    ghost faults: { Self → ℕ };

    /// The next link, or none where no more will come. It may wait for a peer.
    fn next(&mut self) -> Result<Option<Self::Link>, Failed>
        ensures gives { GivesLink (held self.old) (held self.new) result }
        ensures cause { CountsErrors (faults self.old) (faults self.new) result };

    /// The moment, in milliseconds since 1970.
    fn moment(&mut self) -> u64
        ensures value { IfSome (held self.old) (λ h. slice_get h.moments 0 ≡ Some result) }
        ensures gives { held self.new ≡ option_map with_later (held self.old) }
        ensures faults { faults self.new ≡ faults self.old };

    /// Takes a link back that it gave, once the link was served.
    fn done(&mut self, link: Self::Link)
        ensures takes { held self.new ≡ option_map (with_served link) (held self.old) }
        ensures faults { faults self.new ≡ faults self.old };
}
