//! What answers messages, and what it gives for one.
ghost use Rattle.http_wire.specs.declared.message.Message.{Message as MessageValue};
ghost use Rattle.session.specs.declared.service.Given.{Given as GivenValue};
ghost use Rattle.session.specs.Talk.{IsGivable};

use http_wire::{Answer, Message};

/// What a service gives for a message.
#[derive(Drop)]
pub enum Given {
    /// An answer. `entered`: the message has an entry, so that want of memory for the text is told as
    /// `memory-late`.
    Text { answer: Answer, entered: bool },
    /// The store failed.
    StoreFailed,
    /// Memory was refused, and the message has no entry.
    Memory,
    /// Memory was refused, and the message has an entry.
    MemoryLate,
}

/// What answers messages.
pub trait Service {
    // From the one value, the message is answered so and leads to the other.
    ghost answers: { Self → MessageValue → GivenValue → Self → Type 0 };

    /// Answers a message.
    fn answer(&mut self, message: &Message) -> Given
        ensures meaning { answers self.old message.now result self.new }
        ensures writable { IsGivable result };
}
