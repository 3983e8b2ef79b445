//! Why a link ended, and the law that a stream has one end.
ghost use Rattle.std.specs.Prelude.{◌≡◌, ℕ, List};
ghost use Rattle.http_wire.specs.declared.message.Message.{Message as MessageValue};
ghost use Rattle.session.specs.Streams.{HasMessages};
ghost use Rattle.session.specs.declared.link_end.LinkEnd.{LinkEnd as LinkEndValue};

use rtb_num::Txt;

/// Why a link ended.
#[derive(Drop)]
pub enum LinkEnd {
    /// Nothing more came, between messages.
    Done,
    /// Nothing more came, inside a message. `left` is what had come of it, with the empty lines before it.
    Cut { left: Txt },
    /// What came is no message, which was answered with this status.
    Refused { status: u16 },
    /// A message asked for it, and was answered.
    Asked,
    /// The link has had 10,000 messages, and the last did not ask for an end.
    Spent,
    /// The link failed.
    LinkFailed,
    /// Memory was refused.
    NoMemory,
}

/// The bytes of a stream have one list of messages and one end: of the ends that the bytes decide, no
/// two can come of the same bytes.
pub fn stream_ends_once()
    ensures once { (bytes : List ℕ) (ms ns : List MessageValue) (d e : LinkEndValue) → HasMessages 0 bytes ms d → HasMessages 0 bytes ns e → (ms ≡ ns) × (d ≡ e) }
{}
