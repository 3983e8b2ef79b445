//! Blocks in bytes that one call of a disk read.
ghost use Rattle.std.specs.Prelude.{◌≡◌, ◌+◌, ◌<◌, IfSome, length};
ghost use Rattle.follower.specs.Passing.{begins_shut};
ghost use Rattle.journal_file.specs.Damage.{HasBlock};
ghost use Rattle.journal_file.specs.Gates.{begins_open};

use byte_fields::get_eight;

// How many bytes are read in one call.
pub(crate) const PIECE: usize = 65536;

// The payload of the block behind an open gate, where these bytes begin with both and the next gate.
pub(crate) fn payload_of(bytes: &[u8]) -> Option<&[u8]>
    ensures block { IfSome result (λ payload. HasBlock payload.now bytes.now) }
    ensures inside { IfSome result (λ payload. 9 + length payload.now < length bytes.now) }
{
    if !is_open(bytes) {
        return None;
    }
    let (size, start) = get_eight(bytes, 1)?;
    let rest = &bytes[start..];
    if size >= rest.len() as u64 {
        return None;
    }
    Some(&rest[..size as usize])
}

// Whether they begin with an open gate.
fn is_open(bytes: &[u8]) -> bool
    ensures { result ≡ begins_open bytes.now }
{
    match bytes.split_first() {
        Some((gate, _)) => *gate == 1,
        None => false,
    }
}

// Whether they begin with a gate that is shut.
pub(crate) fn is_shut(bytes: &[u8]) -> bool
    ensures { result ≡ begins_shut bytes.now }
{
    match bytes.split_first() {
        Some((gate, _)) => *gate != 1,
        None => false,
    }
}
