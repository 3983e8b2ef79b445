//! Messages of a method, a target and a body.
use case_lines::kept;
use http_wire::Message;
use rtb_num::Txt;
use std::alloc::{AllocError, Global};

/// The message of these parts.
pub fn message_of(
    alloc: Global,
    method: &[u8],
    target: &[u8],
    body: &[u8],
) -> Result<Message, AllocError> {
    let mut message = Message {
        method: Txt::new(alloc),
        target: Txt::new(alloc),
        body: Txt::new(alloc),
        closes: false,
    };
    let filled = fill(&mut message, method, target, body);
    kept(message, filled)
}

fn fill(
    message: &mut Message,
    method: &[u8],
    target: &[u8],
    body: &[u8],
) -> Result<(), AllocError> {
    message.method.extend(method)?;
    message.target.extend(target)?;
    message.body.extend(body)
}
