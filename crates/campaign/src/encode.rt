//! Facts as bytes.
ghost use Rattle.std.specs.Prelude.{◌≡◌, ◌++◌, ℕ, List, Option, OnOk, OnErr, Some};
ghost use Rattle.byte_fields.specs.Encodings.{IsListOf, IsOptionOf, IsShort, list_bytes, option_bytes, text_bytes};
ghost use Rattle.campaign.specs.Encoding.{facts_bytes, int_bytes, sides_bytes};
ghost use Rattle.campaign.specs.Groups.{AreNames, AreSides, IsCreative, IsLook, IsMoney, IsWhole, creative_bytes, creative_of, look_bytes, look_of, money_bytes, money_of, names_bytes, names_of};
ghost use Rattle.campaign.specs.Kept.{IsKept};

use crate::facts::Facts;
use crate::ints::{Ints, put_int};
use crate::parts::{FactParts, size_of};
use byte_fields::{put_eight, put_flag, put_list, put_text, put_texts};
use rtb_num::Txt;
use std::alloc::AllocError;

impl Facts {
    /// Appends its bytes, which leave the cap out. Where memory is refused the text stays as it was.
    pub fn encode(&self, out: &mut Txt) -> Result<(), AllocError>
        ensures ok { OnOk result (out.new ≡ out.old ++ facts_bytes self.now) }
        ensures err { OnErr result (out.new ≡ out.old) }
        ensures kept { IsKept self.now }
    {
        let before = out.len();
        let done = put_parts(self.parts(), out);
        out.settle(before, done)
    }
}

// Appends the bytes of the parts, or a front of them.
fn put_parts(parts: &FactParts, out: &mut Txt) -> Result<(), AllocError>
    requires { IsKept parts.now }
    ensures ok { OnOk result (out.new ≡ out.old ++ facts_bytes parts.now) }
    ensures front { (more : List ℕ) × (out.new ≡ out.old ++ more) }
{
    put_names(parts, out)?;
    put_look(parts, out)?;
    put_money(parts, out)?;
    put_creative(parts, out)?;
    Ok(())
}

fn put_names(parts: &FactParts, out: &mut Txt) -> Result<(), AllocError>
    requires { AreNames (names_of parts.now) }
    ensures ok { OnOk result (out.new ≡ out.old ++ names_bytes (names_of parts.now)) }
    ensures front { (more : List ℕ) × (out.new ≡ out.old ++ more) }
{
    put_text(parts.seat.as_bytes(), out)?;
    put_text(parts.adomain.as_bytes(), out)?;
    put_texts(parts.cat.as_slice(), out)?;
    Ok(())
}

fn put_look(parts: &FactParts, out: &mut Txt) -> Result<(), AllocError>
    requires { IsLook (look_of parts.now) }
    ensures ok { OnOk result (out.new ≡ out.old ++ look_bytes (look_of parts.now)) }
    ensures front { (more : List ℕ) × (out.new ≡ out.old ++ more) }
{
    put_size(size_of(parts), out)?;
    put_list::<Ints>(parts.attr.as_slice(), out)?;
    put_flag(parts.secure, out)
}

fn put_money(parts: &FactParts, out: &mut Txt) -> Result<(), AllocError>
    requires { IsMoney (money_of parts.now) }
    ensures ok { OnOk result (out.new ≡ out.old ++ money_bytes (money_of parts.now)) }
    ensures front { (more : List ℕ) × (out.new ≡ out.old ++ more) }
{
    put_eight(parts.bid.get(), out)?;
    put_texts(parts.deals.as_slice(), out)?;
    put_eight(parts.budget.get(), out)?;
    Ok(())
}

fn put_creative(parts: &FactParts, out: &mut Txt) -> Result<(), AllocError>
    requires { IsCreative (creative_of parts.now) }
    ensures ok { OnOk result (out.new ≡ out.old ++ creative_bytes (creative_of parts.now)) }
    ensures front { (more : List ℕ) × (out.new ≡ out.old ++ more) }
{
    put_text(parts.adm.as_bytes(), out)?;
    put_text(parts.crid.as_bytes(), out)?;
    put_optional(&parts.adid, out)
}

// Appends one or none, or a front of it.
fn put_optional(text: &Option<Txt>, out: &mut Txt) -> Result<(), AllocError>
    requires { IsOptionOf IsShort text.now }
    ensures ok { OnOk result (out.new ≡ out.old ++ option_bytes text_bytes text.now) }
    ensures front { (more : List ℕ) × (out.new ≡ out.old ++ more) }
{
    match text {
        None => put_flag(false, out),
        Some(text) => put_one(text, out),
    }
}

// Appends that there is a text, and the text, or a front of it.
fn put_one(text: &Txt, out: &mut Txt) -> Result<(), AllocError>
    requires { IsShort text.now }
    ensures ok { OnOk result (out.new ≡ out.old ++ option_bytes text_bytes (Some text.now)) }
    ensures front { (more : List ℕ) × (out.new ≡ out.old ++ more) }
{
    put_flag(true, out)?;
    put_text(text.as_bytes(), out)?;
    Ok(())
}

// Appends the sides or that there are none, or a front of it.
fn put_size(size: Option<(i32, i32)>, out: &mut Txt) -> Result<(), AllocError>
    requires { IsOptionOf AreSides size }
    ensures ok { OnOk result (out.new ≡ out.old ++ option_bytes sides_bytes size) }
    ensures front { (more : List ℕ) × (out.new ≡ out.old ++ more) }
{
    match size {
        None => put_flag(false, out),
        Some((w, h)) => put_sides(w, h, out),
    }
}

// Appends that there are sides, and the sides, or a front of it.
fn put_sides(w: i32, h: i32, out: &mut Txt) -> Result<(), AllocError>
    requires { AreSides (w, h) }
    ensures ok { OnOk result (out.new ≡ out.old ++ option_bytes sides_bytes (Some (w, h))) }
    ensures front { (more : List ℕ) × (out.new ≡ out.old ++ more) }
{
    put_flag(true, out)?;
    put_int(w, out)?;
    put_int(h, out)
}
