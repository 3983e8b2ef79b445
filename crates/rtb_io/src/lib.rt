//! All that a source has, all of a text to a sink, and how a program ends.
#![tactic(auto)]

ghost use Rattle.std.specs.Prelude.{◌≡◌, ◌+◌, ◌<◌, ◌≤◌, ◌^◌, ◌⊎◌, Err, length, IfOk, OnErr, OnOk};
ghost use Rattle.rtb_io.specs.Fronts.{AppendsFront, TakesAtMost};
ghost use Rattle.std.specs.Io.KnownBytes.{Appends, Consumes, IsAtEnd};
ghost use Rattle.rtb_base.specs.Faults.{CountsErrors, RisesOnlyWhere, RoseAtMost};
ghost use Rattle.rtb_io.specs.declared.ReadFault.TheVariants.{Failed as failed, Memory as memory};

mod status;

use rtb_num::{Failed, Sink, Source, Txt};
pub use status::Status;
use std::alloc::{AllocError, Global};
use thiserror::Error;

/// Why an input was not read.
#[derive(Clone, Copy, Debug, PartialEq, Eq, Error)]
pub enum ReadFault {
    #[error("the source failed")]
    Failed,
    #[error("memory ran out")]
    Memory,
}

impl From<Failed> for ReadFault {
    ghost from_gives = { λ _ e. e ≡ failed };

    fn from(_: Failed) -> ReadFault {
        ReadFault::Failed
    }
}

impl From<AllocError> for ReadFault {
    ghost from_gives = { λ _ e. e ≡ memory };

    fn from(_: AllocError) -> ReadFault {
        ReadFault::Memory
    }
}

/// Reads to the end, or until more than `limit` bytes have come: at most 4096 more.
pub fn read_all<S: Source>(alloc: Global, source: &mut S, limit: usize) -> Result<Txt, ReadFault>
    requires { limit < 2 ^ 62 }
    ensures bytes { IfOk result (λ t. Consumes (S.left source.old) (S.left source.new) t) }
    ensures end { IfOk result (λ t. IsAtEnd (S.left source.new) ⊎ (limit < length t)) }

    // No more is taken from the source, whatever the answer.
    ensures most { IfOk result (λ t. length t ≤ limit + 4096) }
    ensures taken { TakesAtMost (limit + 4096) (S.left source.old) (S.left source.new) }

    // It fails where a read of the source did, the first that does.
    ensures cause { RisesOnlyWhere (result ≡ Err ReadFault.Failed) (S.faults source.old) (S.faults source.new) }
    ensures once { RoseAtMost 1 (S.faults source.old) (S.faults source.new) }
{
    let mut all = Txt::new(alloc);
    let mut piece = [0u8; 4096];
    while all.len() <= limit {
        let n = source.read(&mut piece)?;
        if n == 0 {
            return Ok(all);
        }
        all.extend(&piece[..n])?;
    }
    Ok(all)
}

/// Writes all of the bytes. Where the sink fails, a front of them was written.
pub fn write_all<K: Sink>(sink: &mut K, bytes: &[u8]) -> Result<(), Failed>
    ensures ok { OnOk result (Appends (K.written sink.old) (K.written sink.new) bytes.now) }
    ensures err { OnErr result (AppendsFront (K.written sink.old) (K.written sink.new) bytes.now) }
    ensures cause { CountsErrors (K.faults sink.old) (K.faults sink.new) result }
{
    let mut rest = bytes;
    while !rest.is_empty() {
        let n = sink.write(rest)?;
        rest = &rest[n..];
    }
    Ok(())
}
