//! The parts of effects written: records, caps, terms and rows.
ghost use Rattle.std.specs.Prelude.{◌≡◌, ◌≤◌, ℕ, List, ◌++◌, OnOk, Some};
ghost use Rattle.byte_fields.specs.Encodings.{IsOptionOf, option_bytes, text_bytes};
ghost use Rattle.effects.specs.Bytes.{IsCap, IsGone, IsRecord, IsRow, IsUser, cap_bytes, gone_bytes, record_bytes, row_bytes, state_number, terms_bytes};

use budget_book::{Gone, SaleRow, SaleState};
use byte_fields::{put_byte, put_eight, put_flag, put_four, put_text};
use campaign::{Cap, Facts};
use rtb_num::Txt;
use std::alloc::AllocError;
use target_expr::Expr;

// Appends facts and expression, with the cap between them where there is one, or a front of their bytes.
pub(crate) fn put_record(facts: &Facts, expr: &Expr, out: &mut Txt) -> Result<(), AllocError>
    ensures ok { OnOk result (out.new ≡ out.old ++ record_bytes facts.now expr.now) }
    ensures front { (more : List ℕ) × (out.new ≡ out.old ++ more) }
    ensures valid { OnOk result (IsRecord facts.now expr.now) }
{
    facts.encode(out)?;
    put_cap(facts.cap(), out)?;
    expr.encode(out)?;
    Ok(())
}

fn put_cap(cap: Option<Cap>, out: &mut Txt) -> Result<(), AllocError>
    ensures ok { OnOk result (out.new ≡ out.old ++ cap_bytes cap) }
    ensures front { (more : List ℕ) × (out.new ≡ out.old ++ more) }
    ensures valid { OnOk result (IsOptionOf IsCap cap) }
{
    match cap {
        Some(cap) => put_terms(cap, out),
        None => Ok(()),
    }
}

fn put_terms(cap: Cap, out: &mut Txt) -> Result<(), AllocError>
    ensures ok { OnOk result (out.new ≡ out.old ++ terms_bytes cap) }
    ensures front { (more : List ℕ) × (out.new ≡ out.old ++ more) }
    ensures valid { OnOk result (IsCap cap) }
{
    put_four(cap.count(), out)?;
    put_four(cap.seconds(), out)?;
    Ok(())
}

// Appends a flag for a cap, and where there is one the cap.
pub(crate) fn put_optional_cap(cap: Option<Cap>, out: &mut Txt) -> Result<(), AllocError>
    ensures ok { OnOk result (out.new ≡ out.old ++ option_bytes terms_bytes cap) }
    ensures front { (more : List ℕ) × (out.new ≡ out.old ++ more) }
    ensures valid { OnOk result (IsOptionOf IsCap cap) }
{
    match cap {
        Some(cap) => put_one_cap(cap, out),
        None => put_flag(false, out),
    }
}

fn put_one_cap(cap: Cap, out: &mut Txt) -> Result<(), AllocError>
    ensures ok { OnOk result (out.new ≡ out.old ++ option_bytes terms_bytes (Some cap)) }
    ensures front { (more : List ℕ) × (out.new ≡ out.old ++ more) }
    ensures valid { OnOk result (IsCap cap) }
{
    put_flag(true, out)?;
    put_terms(cap, out)?;
    Ok(())
}

pub(crate) fn put_gone(gone: &Gone, out: &mut Txt) -> Result<(), AllocError>
    ensures ok { OnOk result (out.new ≡ out.old ++ gone_bytes gone.now) }
    ensures front { (more : List ℕ) × (out.new ≡ out.old ++ more) }
    ensures valid { OnOk result (IsGone gone.now) }
{
    put_eight(gone.spent.get(), out)?;
    put_eight(gone.billed, out)?;
    put_eight(gone.lost, out)?;
    put_eight(gone.expired, out)?;
    Ok(())
}

pub(crate) fn put_row(row: &SaleRow, out: &mut Txt) -> Result<(), AllocError>
    requires { IsOptionOf IsUser row.now.user }
    ensures ok { OnOk result (out.new ≡ out.old ++ row_bytes row.now) }
    ensures front { (more : List ℕ) × (out.new ≡ out.old ++ more) }
    ensures valid { OnOk result (IsRow row.now) }
{
    put_four(row.campaign, out)?;
    put_eight(row.price.get(), out)?;
    put_eight(row.moment, out)?;
    put_eight(row.due, out)?;
    put_byte(state_number(row.state), out)?;
    put_optional_user(&row.user, out)?;
    Ok(())
}

fn state_number(state: SaleState) -> u8
    ensures { result ≡ state_number state }
{
    match state {
        SaleState::Held => 0,
        SaleState::Billed => 1,
        SaleState::Lost => 2,
        SaleState::Expired => 3,
    }
}

fn put_optional_user(user: &Option<Txt>, out: &mut Txt) -> Result<(), AllocError>
    requires { IsOptionOf IsUser user.now }
    ensures ok { OnOk result (out.new ≡ out.old ++ option_bytes text_bytes user.now) }
    ensures front { (more : List ℕ) × (out.new ≡ out.old ++ more) }
{
    match user {
        Some(user) => put_one_user(user, out),
        None => put_flag(false, out),
    }
}

fn put_one_user(user: &Txt, out: &mut Txt) -> Result<(), AllocError>
    requires { IsUser user.now }
    ensures ok { OnOk result (out.new ≡ out.old ++ option_bytes text_bytes (Some user.now)) }
    ensures front { (more : List ℕ) × (out.new ≡ out.old ++ more) }
{
    put_flag(true, out)?;
    put_text(user.as_bytes(), out)?;
    Ok(())
}
