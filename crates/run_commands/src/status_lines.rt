//! The lines of statuses that come with no reply.
ghost use Rattle.std.specs.Prelude.{◌≡◌, ◌≢◌};
ghost use Rattle.std.specs.Io.KnownBytes.{Appends};
ghost use Rattle.rtb_base.specs.Faults.{RisesOnlyWhere};
ghost use Rattle.rtb_io.specs.Fronts.{AppendsFront};
ghost use Rattle.rtb_io.specs.Statuses.{code_of};
ghost use Rattle.rtb_io.specs.declared.status.Status.TheVariants.{NotWritten};
ghost use Rattle.run_commands.specs.Endings.{Ends, EndsBy, line_of};

use rtb_io::{Status, write_all};
use rtb_num::{Failed, Sink};

/// Writes the line of a status that comes with no reply. It answers the status, or that the sink failed.
pub fn end_with<K: Sink>(status: Status, sink: &mut K) -> Status
    requires { status ≢ NotWritten }
    ensures ends { EndsBy status (K.written sink.old) (K.written sink.new) (code_of result) }
    ensures told { result ≢ NotWritten → (result ≡ status) × Appends (K.written sink.old) (K.written sink.new) (line_of status) }
    ensures half_told { result ≡ NotWritten → AppendsFront (K.written sink.old) (K.written sink.new) (line_of status) }
    ensures cause { RisesOnlyWhere (result ≡ NotWritten) (K.faults sink.old) (K.faults sink.new) }
{
    tell(status, line(status), sink)
}

fn line(status: Status) -> &'static [u8]
    ensures { result.now ≡ line_of status }
{
    match status {
        Status::Usage => b"rtbx: usage\n",
        Status::NoDoor => b"rtbx: cannot listen\n",
        Status::NoDisk => b"rtbx: cannot open journal\n",
        Status::JournalFailed => b"rtbx: journal failed\n",
        Status::DoorFailed => b"rtbx: accept failed\n",
        Status::Memory => b"rtbx: memory\n",
        Status::NotRead => b"rtbx: input failed\n",
        Status::LastWriteFailed => b"rtbx: last write failed\n",
        Status::NotEmpty => b"rtbx: not empty\n",
        Status::WriteFailed => b"rtbx: write failed\n",
        Status::TraceTooLong => b"rtbx: trace too long\n",
        Status::NoKey => b"rtbx: no key\n",
        Status::Done | Status::Refused | Status::Damaged | Status::NotWritten | Status::TraceTorn =>
            b"",
    }
}

/// Writes the text. It answers the status, or that the sink failed.
pub fn tell<K: Sink>(status: Status, text: &[u8], sink: &mut K) -> Status
    requires { status ≢ NotWritten }
    ensures ends { Ends status text.now (K.written sink.old) (K.written sink.new) (code_of result) }
    ensures told { result ≢ NotWritten → (result ≡ status) × Appends (K.written sink.old) (K.written sink.new) text.now }
    ensures half_told { result ≡ NotWritten → AppendsFront (K.written sink.old) (K.written sink.new) text.now }
    ensures cause { RisesOnlyWhere (result ≡ NotWritten) (K.faults sink.old) (K.faults sink.new) }
{
    match write_all(sink, text) {
        Ok(()) => status,
        Err(Failed) => Status::NotWritten,
    }
}
