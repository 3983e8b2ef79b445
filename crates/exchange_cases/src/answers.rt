//! What is told of replies and answers.
use address_keys::Keys;
use http_wire::{Allow, Answer};
use plain_exchange::Reply;
use rtb_num::{Txt, write_decimal};
use rtb_response::write_reply;
use rtb_types::BidRequest;
use std::alloc::{AllocError, Global};

/// Appends what is told of the answer to the reply. `request` and `public` are as for `write_reply`.
pub fn put_reply(
    alloc: Global,
    request: Option<&BidRequest>,
    reply: &Reply,
    public: Option<&Txt>,
    out: &mut Txt,
) -> Result<(), AllocError> {
    let keys = Keys::none();
    let answer = write_reply(alloc, request, reply, public, &keys);
    drop(keys);
    put_written(answer, out)
}

fn put_written(answer: Result<Answer, AllocError>, out: &mut Txt) -> Result<(), AllocError> {
    let answer = answer?;
    let written = put_answer(&answer, out);
    drop(answer);
    written
}

/// Appends the status, the methods if there are any, and the body.
pub fn put_answer(answer: &Answer, out: &mut Txt) -> Result<(), AllocError> {
    write_decimal(u64::from(answer.status), out)?;
    out.extend(methods(answer.allow))?;
    if answer.body.is_empty() {
        return Ok(());
    }
    out.extend_all(&[b" ", answer.body.as_bytes()])
}

fn methods(allow: Allow) -> &'static [u8] {
    match allow {
        Allow::None => b"",
        Allow::Post => b" POST",
        Allow::GetPost => b" GET, POST",
    }
}
