//! The text of a refusal, from its word and its members.
ghost use Rattle.std.specs.Prelude.{◌≡◌, ◌∷◌, [], codes, decimal, IsTrue, IfOk};
ghost use Rattle.json_out.specs.Inside.{in_object};
ghost use Rattle.json_out.specs.Strings.{string_text};
ghost use Rattle.json_out.specs.Writer.{blank, can_end, end, is_whole, takes_name};
ghost use Rattle.refusal_text.specs.Refusals.{error_text, error_with};

use json_out::Writer;
use rtb_num::Txt;
use std::alloc::{AllocError, Global};

/// The text of a refusal that has no further member.
pub fn error_text(alloc: Global, word: &[u8]) -> Result<Txt, AllocError>
    ensures { IfOk result (λ t. t ≡ error_text word.now) }
{
    let writer = error(alloc, word)?;
    let text = close(writer)?;
    Ok(text)
}

/// The text of a refusal with a string beside it.
pub(crate) fn with_text(
    alloc: Global,
    word: &[u8],
    name: &[u8],
    value: &[u8],
) -> Result<Txt, AllocError>
    ensures { IfOk result (λ t. t ≡ error_with word.now ((name.now, string_text value.now) ∷ [])) }
{
    let mut writer = error(alloc, word)?;
    writer.put_text(name, value)?;
    let text = close(writer)?;
    Ok(text)
}

/// The text of a refusal with a number beside it.
pub(crate) fn with_number(
    alloc: Global,
    word: &[u8],
    name: &[u8],
    n: usize,
) -> Result<Txt, AllocError>
    ensures { IfOk result (λ t. t ≡ error_with word.now ((name.now, decimal n) ∷ [])) }
{
    let mut writer = error(alloc, word)?;
    writer.put_number(name, n as u64)?;
    let text = close(writer)?;
    Ok(text)
}

/// The text of a refusal with two strings beside it.
pub(crate) fn with_texts(
    alloc: Global,
    word: &[u8],
    first: (&[u8], &[u8]),
    second: (&[u8], &[u8]),
) -> Result<Txt, AllocError>
    ensures { IfOk result (λ t. t ≡ error_with word.now ((first.entry.0.now, string_text first.entry.1.now) ∷ (second.entry.0.now, string_text second.entry.1.now) ∷ [])) }
{
    let mut writer = error(alloc, word)?;
    writer.put_text(first.0, first.1)?;
    writer.put_text(second.0, second.1)?;
    let text = close(writer)?;
    Ok(text)
}

/// The text of a refusal with two numbers beside it.
pub(crate) fn with_numbers(
    alloc: Global,
    word: &[u8],
    first: (&[u8], usize),
    second: (&[u8], usize),
) -> Result<Txt, AllocError>
    ensures { IfOk result (λ t. t ≡ error_with word.now ((first.entry.0.now, decimal first.entry.1) ∷ (second.entry.0.now, decimal second.entry.1) ∷ [])) }
{
    let mut writer = error(alloc, word)?;
    writer.put_number(first.0, first.1 as u64)?;
    writer.put_number(second.0, second.1 as u64)?;
    let text = close(writer)?;
    Ok(text)
}

// Mostly enough bytes for a refusal.
const ROOM: usize = 128;

// A refusal of which the word is written, and which takes further members.
fn error(alloc: Global, word: &[u8]) -> Result<Writer, AllocError>
    ensures value { IfOk result (λ w. w ≡ in_object blank ((codes "error", string_text word.now) ∷ [])) }
    ensures next { IfOk result (λ w. IsTrue (takes_name w)) }
{
    let mut writer = Writer::with_room(alloc, ROOM);
    writer.obj()?;
    writer.put_text(b"error", word)?;
    Ok(writer)
}

// The text, once its object is ended.
fn close(mut writer: Writer) -> Result<Txt, AllocError>
    requires ends { IsTrue (can_end writer) }
    requires whole { IsTrue (is_whole (end writer)) }
    ensures { IfOk result (λ t. t ≡ (end writer).text) }
{
    writer.end()?;
    Ok(writer.finish())
}
