//! What a prepared command will do, with all the memory that it takes.
ghost use Rattle.std.specs.Prelude.{◌≡◌};
ghost use Rattle.std.specs.Option.{option_copied};

use budget_book::{SaleRow, UserKey};
use plain_exchange::{Effect, Look, Reply, SharedRecord};
use rtb_num::List;

/// What a command will do, with all the memory that it takes. Nothing of the exchange is in it.
#[derive(Drop)]
pub struct Draft {
    pub(crate) answer: Answer,
    pub(crate) effect: Option<Effect>,
    // What carrying the effect out takes.
    pub(crate) memory: Memory,
}

// What carrying out an effect takes of memory.
#[derive(Drop)]
pub(crate) enum Memory {
    Nothing,
    // What a campaign states.
    Entry(SharedRecord),
    // The user of each sale, where there is one.
    Keys(List<UserKey>),
    // A sale of a compacted journal, and its user.
    Sale(SaleRow, Option<UserKey>),
}

// What will be answered.
#[derive(Drop)]
pub(crate) enum Answer {
    Told(Reply),
    // What is looked at once the command is carried out.
    Look(Look),
}

impl Draft {
    /// What the command will change, or none where it will change nothing.
    pub fn effect(&self) -> Option<&Effect>
        ensures { option_copied result ≡ self.now.effect }
    {
        self.effect.as_ref()
    }
}
