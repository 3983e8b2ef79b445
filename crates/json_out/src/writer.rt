//! A JSON text that is being written.
ghost use Rattle.std.specs.Prelude.{◌≡◌, ◌++◌, ◌∷◌, [], ℕ, List, length, take, decimal, false, IsTrue, IfOk, OnOk, OnErr};
ghost use Rattle.std.specs.Fmt.{signed_decimal};
ghost use Rattle.rtb_num.specs.Amounts.{micros_text, nanos_text};
ghost use Rattle.json_out.specs.Strings.{string_text};
ghost use Rattle.json_out.specs.Writer.{Written, begin, beginning, blank, can_end, end, ending, is_whole, put_name, put_value, separator, takes_name, takes_value};
ghost use Rattle.json_out.specs.declared.places.Place.TheVariants.{Array, Object};

use crate::places::{Place, Places};
use crate::strings::{push_digits, push_name, push_numbered, push_string};
use rtb_num::{Micros, Nanos, Txt, write_decimal, write_micros, write_nanos, write_signed};
use std::alloc::{AllocError, Global};
use std::marker::Model;

/// A JSON text (RFC 8259) that is being written, without white space.
///
/// Each call may be made only where the grammar has what it writes; `takes_value`, `takes_name`,
/// `can_end` and `is_whole` tell. A call that is refused memory leaves the text as it was, and may be
/// made again. Names of one object may repeat (section 4).
#[derive(Drop)]
pub struct Writer {
    text: Txt,
    places: Places,
}

impl Model for Writer {
    ghost use Rattle.json_out.specs.Writer.{Written};

    ghost Value = { Written };

    ghost view = { λ a. record { text = a.text; places = a.places } };
}

impl Writer {
    /// Nothing is written and nothing is open. It takes no memory.
    pub fn new(alloc: Global) -> Writer
        ensures { result ≡ blank }
    {
        Writer {
            text: Txt::new(alloc),
            places: Places::new(alloc),
        }
    }

    /// As `new`, with the memory for a text of so many bytes, where it is given: for speed alone, no contract sees
    /// room. A text that grows beyond takes more.
    pub fn with_room(alloc: Global, bytes: usize) -> Writer
        ensures { result ≡ blank }
    {
        Writer {
            text: text_with_room(alloc, bytes),
            places: Places::with_room(alloc),
        }
    }

    /// Whether a value may stand next: as the whole text, in an array, or behind a name.
    pub fn takes_value(&self) -> bool
        ensures { result ≡ takes_value self.now }
    {
        if self.places.is_open() {
            !self.places.wants_name()
        } else {
            self.text.is_empty()
        }
    }

    /// Whether the name of a member may stand next.
    pub fn takes_name(&self) -> bool
        ensures { result ≡ takes_name self.now }
    {
        self.places.wants_name()
    }

    /// Whether the innermost array or object may end.
    pub fn can_end(&self) -> bool
        ensures { result ≡ can_end self.now }
    {
        self.places.is_open() && !self.places.wants_value()
    }

    /// Whether one value is written, and nothing is open.
    pub fn is_whole(&self) -> bool
        ensures { result ≡ is_whole self.now }
    {
        !self.places.is_open() && !self.text.is_empty()
    }

    /// Begins an object (section 4).
    pub fn obj(&mut self) -> Result<(), AllocError>
        requires { IsTrue (takes_value self.old) }
        ensures ok { OnOk result (self.new ≡ begin self.old (Object false false)) }
        ensures err { OnErr result (self.new ≡ self.old) }
    {
        self.begin(Place::Object {
            filled: false,
            named: false,
        })
    }

    /// Begins an array (section 5).
    pub fn arr(&mut self) -> Result<(), AllocError>
        requires { IsTrue (takes_value self.old) }
        ensures ok { OnOk result (self.new ≡ begin self.old (Array false)) }
        ensures err { OnErr result (self.new ≡ self.old) }
    {
        self.begin(Place::Array { filled: false })
    }

    /// Ends the innermost array or object.
    pub fn end(&mut self) -> Result<(), AllocError>
        requires { IsTrue (can_end self.old) }
        ensures ok { OnOk result (self.new ≡ end self.old) }
        ensures err { OnErr result (self.new ≡ self.old) }
    {
        self.text.push(self.places.closing())?;
        self.places.pop();
        self.places.fill();
        Ok(())
    }

    /// Writes the name of the next member, and the colon behind it (section 4).
    pub fn name(&mut self, name: &[u8]) -> Result<(), AllocError>
        requires { IsTrue (takes_name self.old) }
        ensures ok { OnOk result (self.new ≡ put_name self.old name.now) }
        ensures err { OnErr result (self.new ≡ self.old) }
    {
        let before = self.separate()?;
        let written = push_name(&mut self.text, name);
        self.settle(before, written)?;
        self.places.name();
        Ok(())
    }

    /// Writes a string (section 7). It is UTF-8 where the bytes are: those from 0x80 on stand as they
    /// are.
    pub fn text(&mut self, text: &[u8]) -> Result<(), AllocError>
        requires { IsTrue (takes_value self.old) }
        ensures ok { OnOk result (self.new ≡ put_value self.old (string_text text.now)) }
        ensures err { OnErr result (self.new ≡ self.old) }
    {
        let before = self.separate()?;
        let written = push_string(&mut self.text, text);
        self.settle(before, written)?;
        self.places.fill();
        Ok(())
    }

    // Writes the string of a number's digits.
    pub(crate) fn digits(&mut self, n: u64) -> Result<(), AllocError>
        requires { IsTrue (takes_value self.old) }
        ensures ok { OnOk result (self.new ≡ put_value self.old (string_text (decimal n))) }
        ensures err { OnErr result (self.new ≡ self.old) }
    {
        let before = self.separate()?;
        let written = push_digits(&mut self.text, n);
        self.settle(before, written)?;
        self.places.fill();
        Ok(())
    }

    // Writes the string of two texts and a number's digits.
    pub(crate) fn numbered(&mut self, text: &[u8], path: &[u8], n: u64) -> Result<(), AllocError>
        requires { IsTrue (takes_value self.old) }
        ensures ok { OnOk result (self.new ≡ put_value self.old (string_text (text.now ++ path.now ++ decimal n))) }
        ensures err { OnErr result (self.new ≡ self.old) }
    {
        let before = self.separate()?;
        let written = push_numbered(&mut self.text, text, path, n);
        self.settle(before, written)?;
        self.places.fill();
        Ok(())
    }

    /// Writes a whole number (section 6).
    pub fn number(&mut self, n: u64) -> Result<(), AllocError>
        requires { IsTrue (takes_value self.old) }
        ensures ok { OnOk result (self.new ≡ put_value self.old (decimal n)) }
        ensures err { OnErr result (self.new ≡ self.old) }
    {
        let before = self.separate()?;
        let written = write_decimal(n, &mut self.text);
        self.settle(before, written)?;
        self.places.fill();
        Ok(())
    }

    /// Writes a whole number that may be negative (section 6).
    pub fn signed(&mut self, n: i32) -> Result<(), AllocError>
        requires { IsTrue (takes_value self.old) }
        ensures ok { OnOk result (self.new ≡ put_value self.old (signed_decimal n)) }
        ensures err { OnErr result (self.new ≡ self.old) }
    {
        let before = self.separate()?;
        let written = write_signed(n, &mut self.text);
        self.settle(before, written)?;
        self.places.fill();
        Ok(())
    }

    /// Writes a price as a number of US dollars per thousand impressions: from 0 to 1000000, with at
    /// most 6 digits behind the point.
    pub fn micros(&mut self, m: Micros) -> Result<(), AllocError>
        requires { IsTrue (takes_value self.old) }
        ensures ok { OnOk result (self.new ≡ put_value self.old (micros_text m)) }
        ensures err { OnErr result (self.new ≡ self.old) }
    {
        let before = self.separate()?;
        let written = write_micros(m, &mut self.text);
        self.settle(before, written)?;
        self.places.fill();
        Ok(())
    }

    /// Writes an amount of money as a number of US dollars: from 0 to 1000000, with at most 9 digits
    /// behind the point.
    pub fn nanos(&mut self, n: Nanos) -> Result<(), AllocError>
        requires { IsTrue (takes_value self.old) }
        ensures ok { OnOk result (self.new ≡ put_value self.old (nanos_text n)) }
        ensures err { OnErr result (self.new ≡ self.old) }
    {
        let before = self.separate()?;
        let written = write_nanos(n, &mut self.text);
        self.settle(before, written)?;
        self.places.fill();
        Ok(())
    }

    /// The whole text.
    pub fn finish(self) -> Txt
        requires { IsTrue (is_whole self) }
        ensures { result ≡ self.text }
    {
        self.text
    }

    fn begin(&mut self, place: Place) -> Result<(), AllocError>
        ensures ok { OnOk result (self.new ≡ begin self.old place) }
        ensures err { OnErr result (self.new ≡ self.old) }
    {
        let before = self.separate()?;
        let written = push_place(&mut self.text, &mut self.places, place);
        self.settle(before, written)
    }

    // Writes the comma, if one is due. Answers how long the text was before.
    #[inline(always)]
    fn separate(&mut self) -> Result<usize, AllocError>
        ensures len { IfOk result (λ n. n ≡ length self.old.text) }
        ensures ok { OnOk result (self.new ≡ record { text = self.old.text ++ separator self.old.places; places = self.old.places }) }
        ensures err { OnErr result (self.new ≡ self.old) }
    {
        let before = self.text.len();
        push_comma(&mut self.text, &self.places)?;
        Ok(before)
    }

    // Takes back what was written, where the rest was refused memory.
    #[inline(always)]
    fn settle(&mut self, before: usize, written: Result<(), AllocError>) -> Result<(), AllocError>
        ensures same { result ≡ written }
        ensures ok { OnOk result (self.new ≡ self.old) }
        ensures err { OnErr result (self.new ≡ record { text = take before self.old.text; places = self.old.places }) }
    {
        if written.is_err() {
            self.text.truncate(before);
        }
        written
    }
}

// The empty text, with room where it is given.
fn text_with_room(alloc: Global, bytes: usize) -> Txt
    ensures { result ≡ [] }
{
    match Vec::with_capacity(alloc, bytes) {
        Ok(bytes) => Txt::from_vec(bytes),
        Err(_) => Txt::new(alloc),
    }
}

// Writes the comma, if one is due.
#[inline(always)]
fn push_comma(text: &mut Txt, places: &Places) -> Result<(), AllocError>
    ensures ok { OnOk result (text.new ≡ text.old ++ separator places.now) }
    ensures err { OnErr result (text.new ≡ text.old) }
{
    if places.has_one() {
        text.push(b',')
    } else {
        Ok(())
    }
}

// Opens an array or an object; where memory is refused, its bracket may stay.
fn push_place(text: &mut Txt, places: &mut Places, place: Place) -> Result<(), AllocError>
    ensures text { OnOk result (text.new ≡ text.old ++ beginning place) }
    ensures places { OnOk result (places.new ≡ place ∷ places.old) }
    ensures front { (more : List ℕ) × (text.new ≡ text.old ++ more) }
    ensures err { OnErr result (places.new ≡ places.old) }
{
    text.push(place.opening())?;
    places.push(place)
}
