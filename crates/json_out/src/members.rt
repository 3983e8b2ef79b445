//! Members of an object written, a call each.
#![tactic(auto, using(crate::proofs::Objects::name_next))]

ghost use Rattle.std.specs.Prelude.{◌≡◌, ◌∷◌, ◌++◌, [], decimal, map, IsTrue, OnOk};
ghost use Rattle.std.specs.Fmt.{signed_decimal};
ghost use Rattle.rtb_num.specs.Amounts.{micros_text, nanos_text};
ghost use Rattle.json_out.specs.Inside.{put_member};
ghost use Rattle.json_out.specs.Strings.{string_text};
ghost use Rattle.json_out.specs.Texts.{array_text};
ghost use Rattle.json_out.specs.Writer.{put_value, takes_name, takes_value};

use crate::writer::Writer;
use rtb_num::{Micros, Nanos, Txt};
use std::alloc::AllocError;

/// Members of an object (RFC 8259, section 4), a call each. Where memory is refused, the name may stay.
impl Writer {
    /// Writes a member whose value is a string.
    pub fn put_text(&mut self, name: &[u8], text: &[u8]) -> Result<(), AllocError>
        requires { IsTrue (takes_name self.old) }
        ensures ok { OnOk result (self.new ≡ put_member self.old (name.now, string_text text.now)) }
        ensures next { OnOk result (IsTrue (takes_name self.new)) }
    {
        self.name(name)?;
        self.text(text)?;
        Ok(())
    }

    /// Writes a member whose value is the string of a number's digits.
    pub fn put_digits(&mut self, name: &[u8], n: u64) -> Result<(), AllocError>
        requires { IsTrue (takes_name self.old) }
        ensures ok { OnOk result (self.new ≡ put_member self.old (name.now, string_text (decimal n))) }
        ensures next { OnOk result (IsTrue (takes_name self.new)) }
    {
        self.name(name)?;
        self.digits(n)?;
        Ok(())
    }

    /// Writes a member whose value is the string of two texts and a number's digits, one behind the other, as in
    /// `"http://ads.example/bill/17"`. It takes no memory beside the text's own.
    pub fn put_numbered(
        &mut self,
        name: &[u8],
        text: &[u8],
        path: &[u8],
        n: u64,
    ) -> Result<(), AllocError>
        requires { IsTrue (takes_name self.old) }
        ensures ok { OnOk result (self.new ≡ put_member self.old (name.now, string_text (text.now ++ path.now ++ decimal n))) }
        ensures next { OnOk result (IsTrue (takes_name self.new)) }
    {
        self.name(name)?;
        self.numbered(text, path, n)?;
        Ok(())
    }

    /// Writes a member whose value is a whole number.
    pub fn put_number(&mut self, name: &[u8], n: u64) -> Result<(), AllocError>
        requires { IsTrue (takes_name self.old) }
        ensures ok { OnOk result (self.new ≡ put_member self.old (name.now, decimal n)) }
        ensures next { OnOk result (IsTrue (takes_name self.new)) }
    {
        self.name(name)?;
        self.number(n)?;
        Ok(())
    }

    /// Writes a member whose value is a whole number that may be negative.
    pub fn put_signed(&mut self, name: &[u8], n: i32) -> Result<(), AllocError>
        requires { IsTrue (takes_name self.old) }
        ensures ok { OnOk result (self.new ≡ put_member self.old (name.now, signed_decimal n)) }
        ensures next { OnOk result (IsTrue (takes_name self.new)) }
    {
        self.name(name)?;
        self.signed(n)?;
        Ok(())
    }

    /// Writes a member whose value is a price in US dollars per thousand impressions.
    pub fn put_micros(&mut self, name: &[u8], price: Micros) -> Result<(), AllocError>
        requires { IsTrue (takes_name self.old) }
        ensures ok { OnOk result (self.new ≡ put_member self.old (name.now, micros_text price)) }
        ensures next { OnOk result (IsTrue (takes_name self.new)) }
    {
        self.name(name)?;
        self.micros(price)?;
        Ok(())
    }

    /// Writes a member whose value is an amount in US dollars.
    pub fn put_nanos(&mut self, name: &[u8], amount: Nanos) -> Result<(), AllocError>
        requires { IsTrue (takes_name self.old) }
        ensures ok { OnOk result (self.new ≡ put_member self.old (name.now, nanos_text amount)) }
        ensures next { OnOk result (IsTrue (takes_name self.new)) }
    {
        self.name(name)?;
        self.nanos(amount)?;
        Ok(())
    }

    /// Writes a member whose value is an array of one string.
    pub fn put_one(&mut self, name: &[u8], text: &[u8]) -> Result<(), AllocError>
        requires { IsTrue (takes_name self.old) }
        ensures ok { OnOk result (self.new ≡ put_member self.old (name.now, array_text (string_text text.now ∷ []))) }
        ensures next { OnOk result (IsTrue (takes_name self.new)) }
    {
        self.name(name)?;
        self.arr()?;
        self.text(text)?;
        self.end()?;
        Ok(())
    }

    /// Writes a member whose value is an array of strings.
    pub fn put_texts(&mut self, name: &[u8], texts: &[Txt]) -> Result<(), AllocError>
        requires { IsTrue (takes_name self.old) }
        ensures ok { OnOk result (self.new ≡ put_member self.old (name.now, array_text (map string_text texts.now))) }
        ensures next { OnOk result (IsTrue (takes_name self.new)) }
    {
        self.name(name)?;
        self.texts(texts)?;
        Ok(())
    }

    /// Writes a member whose value is an array of whole numbers.
    pub fn put_signeds(&mut self, name: &[u8], numbers: &[i32]) -> Result<(), AllocError>
        requires { IsTrue (takes_name self.old) }
        ensures ok { OnOk result (self.new ≡ put_member self.old (name.now, array_text (map signed_decimal numbers.now))) }
        ensures next { OnOk result (IsTrue (takes_name self.new)) }
    {
        self.name(name)?;
        self.signeds(numbers)?;
        Ok(())
    }

    // Writes an array of strings.
    fn texts(&mut self, texts: &[Txt]) -> Result<(), AllocError>
        requires { IsTrue (takes_value self.old) }
        ensures { OnOk result (self.new ≡ put_value self.old (array_text (map string_text texts.now))) }
    {
        self.arr()?;
        for text in texts {
            self.text(text.as_bytes())?;
        }
        self.end()?;
        Ok(())
    }

    // Writes an array of whole numbers.
    fn signeds(&mut self, numbers: &[i32]) -> Result<(), AllocError>
        requires { IsTrue (takes_value self.old) }
        ensures { OnOk result (self.new ≡ put_value self.old (array_text (map signed_decimal numbers.now))) }
    {
        self.arr()?;
        for number in numbers {
            self.signed(*number)?;
        }
        self.end()?;
        Ok(())
    }
}
