//! Why bytes are no message, and the answer to that.
ghost use Rattle.std.specs.Prelude.{◌≡◌};
ghost use Rattle.http_wire.specs.Words.{status_of, word_of};

use thiserror::Error;

/// Why bytes are no message. The link ends after the answer.
#[derive(Clone, Copy, Debug, PartialEq, Eq, Error)]
pub enum Refusal {
    /// The head, with the empty lines before it, has more than 8,192 bytes, or more than 65 lines
    /// before its empty one.
    #[error("the head is too large")]
    HeadTooLarge,
    /// The head is none of RFC 9112, section 3, or has a fault in a field (section 5).
    #[error("the head is malformed")]
    Head,
    /// A field says that the body is coded for its transfer (section 6.1).
    #[error("transfer codings are not taken")]
    TransferEncoding,
    /// A length of the body is no decimal number, or the lengths differ (section 6.3).
    #[error("the length of the body is no number, or the lengths differ")]
    ContentLength,
    /// The body has more than 262,144 bytes.
    #[error("the body is too large")]
    BodyTooLarge,
    /// The body is compressed (RFC 9110, section 8.4).
    #[error("compressed bodies are not taken")]
    ContentEncoding,
}

impl Refusal {
    /// The status of the answer.
    pub fn status(self) -> u16
        ensures { result ≡ status_of self }
    {
        match self {
            Refusal::HeadTooLarge => 431,
            Refusal::Head => 400,
            Refusal::TransferEncoding => 501,
            Refusal::ContentLength => 400,
            Refusal::BodyTooLarge => 413,
            Refusal::ContentEncoding => 415,
        }
    }

    /// The word in the answer's body.
    pub fn word(self) -> &'static [u8]
        ensures { result.now ≡ word_of self }
    {
        match self {
            Refusal::HeadTooLarge => b"head-too-large",
            Refusal::Head => b"head",
            Refusal::TransferEncoding => b"transfer-encoding",
            Refusal::ContentLength => b"content-length",
            Refusal::BodyTooLarge => b"body-too-large",
            Refusal::ContentEncoding => b"content-encoding",
        }
    }
}
