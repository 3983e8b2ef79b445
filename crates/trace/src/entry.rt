//! An entry of a trace.
ghost use Rattle.std.specs.Prelude.{◌≡◌, ◌++◌, IfOk, OnErr, OnOk, List, ℕ};
ghost use Rattle.byte_fields.specs.Codes.{IsReadAt};
ghost use Rattle.byte_fields.specs.Encodings.{IsShort};
ghost use Rattle.trace.specs.Parts.{AreParts, IsAsked, IsFull, IsSent, IsTold, asked_bytes, entry_from, full_bytes, parts_bytes, sent_bytes, told_bytes};
ghost use Rattle.trace.specs.Traces.{IsEntry, entry_bytes};

use byte_fields::{
    Element, Found, get_eight, get_four, get_text, paired, put_eight, put_four, put_text,
};
use http_wire::Message;
use rtb_num::Txt;
use std::alloc::{AllocError, Global};

/// A message with its moment and its answer.
#[derive(Debug, Drop)]
pub struct Entry {
    /// When the message came, in milliseconds.
    pub moment: u64,
    pub message: Message,
    /// The status of the answer (RFC 9110, section 15).
    pub status: u32,
    /// The body of the answer; empty where it had none.
    pub answer: Txt,
}

// The moment and the method; these and the target; these and the body; these and the status; these and the answer.
type Asked = (u64, Txt);

type Sent = (Asked, Txt);

type Full = (Sent, Txt);

type Told = (Full, u32);

type Parts = (Told, Txt);

/// Entries, as what stands one behind the other.
pub struct Entries;

impl Element for Entries {
    type Item = Entry;

    ghost IsValid = { IsEntry };

    ghost encode = { entry_bytes };

    fn put(item: &Entry, out: &mut Txt) -> Result<(), AllocError> {
        append_entry(item.moment, &item.message, item.status, &item.answer, out)
    }

    fn get(alloc: Global, bytes: &[u8], place: usize) -> Found<Entry> {
        get_entry(alloc, bytes, place)
    }
}

/// Appends an entry, all or none. Whether the message closes its link is not kept.
pub fn put_entry(
    moment: u64,
    message: &Message,
    status: u32,
    answer: &Txt,
    out: &mut Txt,
) -> Result<(), AllocError>
    requires method { IsShort message.now.method }
    requires target { IsShort message.now.target }
    requires body { IsShort message.now.body }
    requires answer { IsShort answer.now }
    ensures ok { OnOk result (out.new ≡ out.old ++ entry_bytes (record { moment = moment; message = message.now; status = status; answer = answer.now })) }
    ensures err { OnErr result (out.new ≡ out.old) }
{
    let before = out.len();
    let done = append_entry(moment, message, status, answer, out);
    out.settle(before, done)
}

// The same; where memory is refused, a front may stay.
#[tactic(auto, unfolding(crate::specs::Traces::entry_bytes))]
fn append_entry(
    moment: u64,
    message: &Message,
    status: u32,
    answer: &Txt,
    out: &mut Txt,
) -> Result<(), AllocError>
    requires method { IsShort message.now.method }
    requires target { IsShort message.now.target }
    requires body { IsShort message.now.body }
    requires answer { IsShort answer.now }
    ensures ok { OnOk result (out.new ≡ out.old ++ entry_bytes (record { moment = moment; message = message.now; status = status; answer = answer.now })) }
    ensures front { (more : List ℕ) × (out.new ≡ out.old ++ more) }
{
    put_eight(moment, out)?;
    put_text(message.method.as_bytes(), out)?;
    put_text(message.target.as_bytes(), out)?;
    put_text(message.body.as_bytes(), out)?;
    put_four(status, out)?;
    put_text(answer.as_bytes(), out)?;
    Ok(())
}

/// The entry at the place, and the place behind it; none where no whole entry begins there.
pub fn get_entry(alloc: Global, bytes: &[u8], place: usize) -> Found<Entry>
    ensures { IfOk result (IsReadAt IsEntry entry_bytes bytes.now place) }
{
    let Some((parts, next)) = get_parts(alloc, bytes, place)? else {
        return Ok(None);
    };
    Ok(Some((entry_from(parts), next)))
}

fn entry_from(parts: Parts) -> Entry
    ensures { result ≡ entry_from parts }
{
    let (((((moment, method), target), body), status), answer) = parts;
    Entry {
        moment,
        message: Message {
            method,
            target,
            body,
            closes: false,
        },
        status,
        answer,
    }
}

fn get_parts(alloc: Global, bytes: &[u8], place: usize) -> Found<Parts>
    ensures { IfOk result (IsReadAt AreParts parts_bytes bytes.now place) }
{
    let Some((told, next)) = get_told(alloc, bytes, place)? else {
        return Ok(None);
    };
    paired(told, get_text(alloc, bytes, next))
}

fn get_told(alloc: Global, bytes: &[u8], place: usize) -> Found<Told>
    ensures { IfOk result (IsReadAt IsTold told_bytes bytes.now place) }
{
    let Some((full, next)) = get_full(alloc, bytes, place)? else {
        return Ok(None);
    };
    paired(full, Ok(get_four(bytes, next)))
}

fn get_full(alloc: Global, bytes: &[u8], place: usize) -> Found<Full>
    ensures { IfOk result (IsReadAt IsFull full_bytes bytes.now place) }
{
    let Some((sent, next)) = get_sent(alloc, bytes, place)? else {
        return Ok(None);
    };
    paired(sent, get_text(alloc, bytes, next))
}

fn get_sent(alloc: Global, bytes: &[u8], place: usize) -> Found<Sent>
    ensures { IfOk result (IsReadAt IsSent sent_bytes bytes.now place) }
{
    let Some((asked, next)) = get_asked(alloc, bytes, place)? else {
        return Ok(None);
    };
    paired(asked, get_text(alloc, bytes, next))
}

fn get_asked(alloc: Global, bytes: &[u8], place: usize) -> Found<Asked>
    ensures { IfOk result (IsReadAt IsAsked asked_bytes bytes.now place) }
{
    let Some((moment, next)) = get_eight(bytes, place) else {
        return Ok(None);
    };
    paired(moment, get_text(alloc, bytes, next))
}
