//! Effects of a journal are carried out.
ghost use Rattle.std.specs.Prelude.{◌≡◌, ◌≤◌, ◌+◌, ◌^◌, IfErr, OnErr, OnOk, Some};
ghost use Rattle.auction_core.specs.Applying.{Explains};
ghost use Rattle.plain_exchange.specs.Effects.{applied, edits_in};

use crate::exchange::Core;
use crate::fault::ApplyFault;
use plain_exchange::Effect;
use std::alloc::Global;

impl Core {
    /// Carries out an effect of a journal. After an error the exchange is as it was, but for rooms.
    pub fn apply(&mut self, alloc: Global, effect: &Effect) -> Result<(), ApplyFault>
        requires few { self.old.edits + edits_in effect.now.change ≤ 2 ^ 63 }
        ensures after { OnOk result (applied effect.now self.old.state ≡ Some self.new.state) }
        ensures fault { IfErr result (Explains (applied effect.now self.old.state)) }
        ensures unchanged { OnErr result (self.new.state ≡ self.old.state) }
        ensures settings { self.new.settings ≡ self.old.settings }
        ensures edits { OnOk result (self.new.edits ≡ self.old.edits + edits_in effect.now.change) }
        ensures unedited { OnErr result (self.new.edits ≡ self.old.edits) }
    {
        if !self.fits(effect) {
            return Err(ApplyFault::Unfit);
        }
        let memory = self.make_ready(alloc, &effect.change)?;
        self.put(effect, memory);
        Ok(())
    }
}
