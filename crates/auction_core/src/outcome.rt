//! What comes of preparing a command: its reply, and what it changes.
ghost use Rattle.std.specs.Prelude.{◌≡◌};
ghost use Rattle.auction_core.specs.Outcomes.{does, told_alone};

use crate::draft::Answer;
use plain_exchange::{Change, Reply};

// What a command does to a state in which nothing is due.
#[derive(Drop)]
pub(crate) struct Outcome {
    pub answer: Answer,
    // What the command itself changes.
    pub change: Option<Change>,
}

// Nothing but the reply.
pub(crate) fn reply_alone(reply: Reply) -> Outcome
    ensures { result ≡ told_alone reply }
{
    Outcome {
        answer: Answer::Told(reply),
        change: None,
    }
}

// The change, and the reply to it.
pub(crate) fn reply_to(change: Change, reply: Reply) -> Outcome
    ensures { result ≡ does reply change }
{
    Outcome {
        answer: Answer::Told(reply),
        change: Some(change),
    }
}
