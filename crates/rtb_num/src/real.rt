//! Sources and sinks of the system.
ghost use Rattle.std.specs.Prelude.{◌≡◌, ◌≤◌, ◌==◌, ◌&&◌, ◌||◌, not, length, if◌then◌else◌, IfOk, Ok};
ghost use Rattle.std.specs.Result.{is_err, result_unwrap_or};
ghost use Rattle.rtb_base.specs.Faults.{one_more};

use crate::streams::{Failed, Sink, Source};
use std::io::{self, Read, Write};

/// A source over a reader of `std`, such as standard input.
#[derive(Drop)]
pub struct StdSource<R: Read> {
    reader: R,
    faults: u64,
}

impl<R: Read> StdSource<R> {
    /// A source that has left what the reader has, and has met no fault.
    pub fn new(reader: R) -> StdSource<R>
        ensures left { ⟦<StdSource<R> as Source>⟧.left result ≡ R.remaining reader }
        ensures faults { ⟦<StdSource<R> as Source>⟧.faults result ≡ 0 }
    {
        StdSource { reader, faults: 0 }
    }
}

impl<R: Read> Source for StdSource<R> {
    ghost left = { λ s. R.remaining s.reader };

    ghost faults = { λ s. s.faults };

    fn read(&mut self, out: &mut [u8]) -> Result<usize, Failed> {
        let answer = self.reader.read(out);
        settle(answer, true, &mut self.faults)
    }
}

/// A sink over a writer of `std`, such as standard output.
///
/// A write of a piece that is not empty and takes no byte is a fault.
#[derive(Drop)]
pub struct StdSink<W: Write> {
    writer: W,
    faults: u64,
}

impl<W: Write> StdSink<W> {
    /// A sink that was written what the writer holds, and has met no fault.
    pub fn new(writer: W) -> StdSink<W>
        ensures written { ⟦<StdSink<W> as Sink>⟧.written result ≡ W.contents writer }
        ensures faults { ⟦<StdSink<W> as Sink>⟧.faults result ≡ 0 }
    {
        StdSink { writer, faults: 0 }
    }
}

impl<W: Write> Sink for StdSink<W> {
    ghost written = { λ s. W.contents s.writer };

    ghost faults = { λ s. s.faults };

    fn write(&mut self, bytes: &[u8]) -> Result<usize, Failed> {
        let answer = self.writer.write(bytes);
        settle(answer, bytes.is_empty(), &mut self.faults)
    }
}

// What an answer of the system comes to. It is a fault where it is an error, or where no byte was moved
// and none is no answer; a fault is counted, and nothing else is.
fn settle(answer: io::Result<usize>, may_be_none: bool, faults: &mut u64) -> Result<usize, Failed>
    ensures fault { is_err result ≡ (is_err answer || (result_unwrap_or answer 0 == 0 && not may_be_none)) }
    ensures moved { IfOk result (λ n. answer ≡ Ok n) }
    ensures counted { faults.new ≡ (if is_err result then one_more faults.old else faults.old) }
    ensures kept { faults.old ≤ faults.new }
{
    match answer {
        Ok(n) if n > 0 || may_be_none => Ok(n),
        _ => {
            *faults = faults.saturating_add(1);
            Err(Failed)
        }
    }
}
