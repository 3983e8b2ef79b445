//! Messages of HTTP/1.1 read from the bytes of a link (RFC 9112).
ghost use Rattle.std.specs.Prelude.{◌≡◌, ◌+◌, ◌<◌, ◌≤◌, ℕ, List, length, ◌++◌, slice_range, IfOk, Ok};
ghost use Rattle.http_wire.specs.Wire.{Decides, IsLeast, Reads};
ghost use Rattle.http_wire.specs.Words.{status_of, word_of};
ghost use Rattle.http_wire.specs.declared.message.Step.{Step as StepValue};
ghost use Rattle.http_wire.specs.declared.message.Step.TheVariants.{Need, Got, Refused};

use crate::opened::{Begun, Opened, open};
use crate::refusal::Refusal;
use rtb_base::Steps;
use rtb_num::Txt;
use std::alloc::{AllocError, Global};
use std::sync::ledger::Ledger;

/// A message: a request of HTTP/1.0 or HTTP/1.1 (RFC 9112, section 2.1).
#[derive(Debug, Drop)]
pub struct Message {
    /// As it came; methods tell capitals from small letters.
    pub method: Txt,
    /// As it came, with its query and its escapes.
    pub target: Txt,
    /// At most 262,144 bytes.
    pub body: Txt,
    /// The link ends after the answer (RFC 9112, sections 9.3 and 9.6).
    pub closes: bool,
}

/// What the bytes at the front of a stream are.
#[derive(Debug, Drop)]
pub enum Step {
    /// Nothing is decided yet.
    Need,
    /// A message, in so many bytes, the empty lines before it included.
    Got { message: Message, used: usize },
    /// No message, with the status of the answer and the word in its body.
    Refused { status: u16, word: Txt },
}

/// What stands at the front of the bytes, whatever may follow. It ticks once.
pub fn next_message<L: Ledger>(
    alloc: Global,
    bytes: &[u8],
    steps: &mut Steps<L>,
) -> Result<Step, AllocError>
    ensures step { IfOk result (λ step. Reads bytes.now step) }
    ensures cost { steps.new ≡ steps.old + 1 }
{
    steps.tick();
    match open(bytes) {
        Opened::Need => Ok(Step::Need),
        Opened::Refused(refusal) => refusal_step(alloc, refusal),
        Opened::Begun(begun) => {
            if bytes.len() < begun.to {
                return Ok(Step::Need);
            }
            message_step(alloc, bytes, &begun)
        }
    }
}

fn refusal_step(alloc: Global, refusal: Refusal) -> Result<Step, AllocError>
    ensures { IfOk result (λ s. s ≡ Refused (status_of refusal) (word_of refusal)) }
{
    let word = Txt::from_slice(alloc, refusal.word())?;
    Ok(Step::Refused {
        status: refusal.status(),
        word,
    })
}

// The message, whose body is there.
fn message_step(alloc: Global, bytes: &[u8], begun: &Begun<'_>) -> Result<Step, AllocError>
    requires ordered { begun.now.from ≤ begun.now.to }
    requires there { begun.now.to ≤ length bytes.now }
    ensures { IfOk result (λ s. s ≡ Got (record { method = begun.now.method.now; target = begun.now.target.now; body = slice_range bytes.now begun.now.from begun.now.to; closes = begun.now.closes }) begun.now.to) }
{
    let method = Txt::from_slice(alloc, begun.method)?;
    let target = Txt::from_slice(alloc, begun.target)?;
    let body = Txt::from_slice(alloc, &bytes[begun.from..begun.to])?;
    let message = Message {
        method,
        target,
        body,
        closes: begun.closes,
    };
    Ok(Step::Got {
        message,
        used: begun.to,
    })
}

/// How many bytes there are at least before something is decided of bytes that begin so: all of
/// the message where its head is there, and one more else. Fewer decide nothing.
pub fn at_least(bytes: &[u8]) -> usize
    requires { (step : StepValue) → Decides bytes.now step → ⊥ }
    ensures value { IsLeast bytes.now result }
    ensures more { length bytes.now < result }
    ensures bound { result ≤ 270336 }
    ensures needed { (rest : List ℕ) (step : StepValue) → length bytes.now + length rest < result → Decides (bytes.now ++ rest) step → ⊥ }
{
    match open(bytes) {
        Opened::Begun(begun) => begun.to,
        Opened::Need => bytes.len() + 1,
        Opened::Refused(_) => bytes.len() + 1,
    }
}

/// What is decided of some bytes is decided of all bytes that begin with them, and nothing else is:
/// the messages of a stream do not depend on how it is cut.
pub fn decided_stays()
    ensures stays { (bytes more : List ℕ) (s : StepValue) → Decides bytes s → Decides (bytes ++ more) s }
    ensures once { (bytes more : List ℕ) (s t : StepValue) → Decides bytes s → Decides (bytes ++ more) t → s ≡ t }
{}
