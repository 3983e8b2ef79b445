//! Laws of what is written, with nothing to run.
ghost use Rattle.std.specs.Prelude.{◌≡◌, ◌+◌, ◌++◌, length, List, Option, Some, ℕ};
ghost use Rattle.byte_fields.specs.Codes.{IsCode, IsReadAt};
ghost use Rattle.trace.specs.Traces.{IsEntry, IsHeader, entry_bytes, header_bytes};
ghost use Rattle.trace.specs.declared.entry.Entry.{Entry as AnEntry};
ghost use Rattle.trace.specs.declared.header.Header.{Header as AHeader};

/// The law of fronts: from bytes that begin with a header, or with an entry, it is known which it is, and where it
/// ends. So no entry is a front of another.
pub fn entries_tell_their_ends()
    ensures header { IsCode IsHeader header_bytes }
    ensures entry { IsCode IsEntry entry_bytes }
{}

/// The law of reading again: whatever a reader answers at the place where a header or an entry was put, is that header
/// or entry, and the place behind it.
pub fn what_was_put_is_read_again()
    ensures header { (front back : List ℕ) (h : AHeader) (found : Option (AHeader × ℕ)) → IsHeader h
        → IsReadAt IsHeader header_bytes ((front ++ header_bytes h) ++ back) (length front) found → found ≡ Some (h, length front + length (header_bytes h)) }
    ensures entry { (front back : List ℕ) (e : AnEntry) (found : Option (AnEntry × ℕ)) → IsEntry e
        → IsReadAt IsEntry entry_bytes ((front ++ entry_bytes e) ++ back) (length front) found → found ≡ Some (e, length front + length (entry_bytes e)) }
{}
