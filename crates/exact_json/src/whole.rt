//! A whole text read, or the place and the kind of its first fault; the laws of reading.
ghost use Rattle.std.specs.Prelude.{◌≡◌, ◌≢◌, ◌<◌, ◌++◌, ◌∷◌, [], ℕ, List, length, Some, true, false, IfOk, IfErr, MatchResult};
ghost use Rattle.exact_json.specs.Docs.{doc_tree};
ghost use Rattle.exact_json.specs.Faults.{Explains};
ghost use Rattle.exact_json.specs.Grammar.{Faulty, IsText, Live, LiveWithin, one_deeper};
ghost use Rattle.exact_json.specs.Places.{has_no_quote, inside, opens, outside, place_behind};
ghost use Rattle.exact_json.specs.Strings.{IsCharacter};
ghost use Rattle.exact_json.specs.Tree.{Tree};
ghost use Rattle.exact_json.specs.declared.fault.JsonFault.{JsonFault};
ghost use Rattle.exact_json.specs.declared.fault.JsonFault.TheVariants as fault;

use crate::doc::Doc;
use crate::fault::JsonFault;
use crate::place::{breaks_utf8, place_behind};
use crate::reader::text_of;
use crate::stop::Stop;
use bumpalo::Bump;
use std::alloc::Global;

// How deep arrays and objects may nest.
const MAX_DEPTH: usize = 64;

/// The value that the bytes spell, all of them, where they are a text that nests at most 64 deep;
/// else the fault with its place: the least offset whose byte no text has there, or the length
/// where the bytes are the front of a text.
///
/// The value borrows from the bytes and lies in the arena, which begins best with `room_for` the bytes.
/// A text that is refused leaves in the arena what it took.
pub fn read<'a>(alloc: Global, arena: &'a Bump, bytes: &'a [u8]) -> Result<Doc<'a>, JsonFault>
    ensures found { IfOk result (λ doc. IsText (doc_tree doc) bytes.now) }
    ensures only { (t : Tree) → IsText t bytes.now → MatchResult result (λ doc. doc_tree doc ≡ t) (λ e. e ≡ fault.Memory) }
    ensures fault { IfErr result (Explains bytes.now) }
{
    match text_of(alloc, arena, bytes, MAX_DEPTH) {
        Ok(root) => Ok(Doc::from_root(root)),
        Err(Stop::Memory) => Err(JsonFault::Memory),
        Err(Stop::Short) => Err(JsonFault::Ended { at: bytes.len() }),
        Err(Stop::At(left)) => Err(fault_at(alloc, arena, bytes, bytes.len() - left)),
    }
}

// The fault of bytes that are live up to this place and not with its byte.
fn fault_at(alloc: Global, arena: &Bump, bytes: &[u8], at: usize) -> JsonFault
    requires { Faulty bytes.now at }
    ensures { Explains bytes.now result }
{
    let byte = bytes[at];
    if breaks_utf8(place_behind(&bytes[..at]), byte) {
        return JsonFault::Utf8 { at };
    }
    if !opens(byte) {
        return JsonFault::Syntax { at };
    }
    match is_alive(alloc, arena, &bytes[..at + 1]) {
        None => JsonFault::Memory,
        Some(true) => JsonFault::Deep { at },
        Some(false) => JsonFault::Syntax { at },
    }
}

fn opens(byte: u8) -> bool
    ensures { result ≡ opens byte }
{
    byte == b'[' || byte == b'{'
}

// Some rest makes the front a text that nests at most one level deeper. `None` is no memory.
fn is_alive(alloc: Global, arena: &Bump, front: &[u8]) -> Option<bool>
    ensures alive { result ≡ Some true → LiveWithin one_deeper front.now }
    ensures dead { result ≡ Some false → LiveWithin one_deeper front.now → ⊥ }
{
    match text_of(alloc, arena, front, MAX_DEPTH + 1) {
        Ok(_value) => return Some(true),
        Err(Stop::Memory) => return None,
        Err(Stop::Short) => return Some(true),
        Err(Stop::At(_)) => return Some(false),
    }
}

/// A text has one tree.
pub fn text_has_one_tree(bytes: &[u8])
    ensures { (t u : Tree) → IsText t bytes.now → IsText u bytes.now → t ≡ u }
{}

/// Bytes have one fault, want of memory aside, and a text has none.
pub fn bytes_have_one_fault(bytes: &[u8])
    ensures one { (e f : JsonFault) → e ≢ fault.Memory → f ≢ fault.Memory → Explains bytes.now e → Explains bytes.now f → e ≡ f }
    ensures none { (e : JsonFault) (t : Tree) → e ≢ fault.Memory → Explains bytes.now e → IsText t bytes.now → ⊥ }
{}

/// The place behind a front, which decides between `Utf8` and the other faults, is that of the
/// grammar.
///
/// A number sign stands in strings alone: where a front goes on without a quotation mark to one, it
/// ends inside a string. Where it goes on so to a blank and a string, or to the end of a text, it
/// ends outside. Behind the front of a character of UTF-8 as many bytes are due as the character has
/// left, and where a byte below 0x80 goes on, none is.
pub fn places_follow_the_grammar(front: &[u8])
    ensures within { (w : List ℕ) → has_no_quote w ≡ true → Live ((front.now ++ w) ++ 35 ∷ []) → place_behind front.now ≢ outside }
    ensures before { (w : List ℕ) → has_no_quote w ≡ true → Live ((front.now ++ w) ++ 32 ∷ 34 ∷ 35 ∷ []) → place_behind front.now ≡ outside }
    ensures behind { (w : List ℕ) (t : Tree) → has_no_quote w ≡ true → IsText t (front.now ++ w) → place_behind front.now ≡ outside }
    ensures due { (c : ℕ) (a b : List ℕ) → Live (front.now ++ 35 ∷ []) → IsCharacter (c ∷ a ++ b) → place_behind (front.now ++ c ∷ a) ≡ inside (length b) }
    ensures none_due { (c due : ℕ) → Live (front.now ++ c ∷ []) → c < 128 → place_behind front.now ≡ inside due → due ≡ 0 }
{}
