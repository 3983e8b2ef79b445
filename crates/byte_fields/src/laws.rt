//! The laws of fields: where each ends, and that what was put is read again.
ghost use Rattle.std.specs.Prelude.{◌≡◌, ℕ, ◌+◌, List, ◌++◌, length, Option, Some};
ghost use Rattle.byte_fields.specs.Codes.{BeginsAt, IsCode, IsReadAt};
ghost use Rattle.byte_fields.specs.Encodings.{FitsEight, FitsFour, IsByte, IsFlag, IsListOf, IsShort, byte_bytes, eight_bytes, flag_bytes, four_bytes, list_bytes, text_bytes};

/// The law of the ends, with nothing to run: no word of a field is a front of another's, so bytes that
/// begin with a field have one reading.
pub fn fields_tell_their_ends()
    ensures byte { IsCode IsByte byte_bytes }
    ensures flag { IsCode IsFlag flag_bytes }
    ensures four { IsCode FitsFour four_bytes }
    ensures eight { IsCode FitsEight eight_bytes }
    ensures text { IsCode IsShort text_bytes }
    ensures texts { IsCode (IsListOf IsShort) (list_bytes text_bytes) }
{}

/// The law of the places, with nothing to run: what was put behind some bytes begins at the place
/// that was their end, whatever stands behind it.
pub fn what_was_put_begins_there()
    ensures { (front word back : List ℕ) → BeginsAt ((front ++ word) ++ back) (length front) word (length front + length word) }
{}

/// The law of reading again, with nothing to run: whatever a reader answers at the place where a text,
/// or a list of texts, was put, is that text or list, and the place behind it.
pub fn what_was_put_is_read_again()
    ensures text { (front back : List ℕ) (t : List ℕ) (found : Option (List ℕ × ℕ)) → IsShort t
        → IsReadAt IsShort text_bytes ((front ++ text_bytes t) ++ back) (length front) found → found ≡ Some (t, length front + length (text_bytes t)) }
    ensures texts { (front back : List ℕ) (ts : List (List ℕ)) (found : Option (List (List ℕ) × ℕ)) → IsListOf IsShort ts
        → IsReadAt (IsListOf IsShort) (list_bytes text_bytes) ((front ++ list_bytes text_bytes ts) ++ back) (length front) found → found ≡ Some (ts, length front + length (list_bytes text_bytes ts)) }
{}
