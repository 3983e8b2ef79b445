//! An effect as bytes.
ghost use Rattle.std.specs.Prelude.{◌≡◌, ◌≤◌, ℕ, List, true, ◌++◌, OnOk, OnErr};
ghost use Rattle.effects.specs.Bodies.{IsTagged};
ghost use Rattle.byte_fields.specs.Encodings.{FitsFour, four_bytes, text_bytes};
ghost use Rattle.effects.specs.Bytes.{AreItems, AreSome, HasLengths, IsChange, IsEncodable, IsGone, IsRecord, IsUser, body_bytes, effect_bytes, is_kept, items_bytes, kept_bytes, record_bytes};
ghost use Rattle.effects.specs.Tags.{by_cap, tag_of};

use crate::items::put_items;
use crate::parts::{put_gone, put_optional_cap, put_record, put_row};
use crate::tag::{Tag, put_tag};
use byte_fields::{put_eight, put_flag, put_four, put_text};
use campaign::Facts;
use plain_exchange::{Change, Effect, KeptCampaign, SoldItem};
use rtb_num::Txt;
use std::alloc::AllocError;
use target_expr::Expr;

/// Appends the bytes of an effect. Where memory is refused the text stays as it was.
pub fn encode(effect: &Effect, out: &mut Txt) -> Result<(), AllocError>
    requires lengths { HasLengths effect.now.change }
    requires kept { is_kept effect.now.change ≡ true → effect.now.moment ≡ 0 }
    ensures ok { OnOk result (out.new ≡ out.old ++ effect_bytes effect.now) }
    ensures err { OnErr result (out.new ≡ out.old) }
    ensures encodable { OnOk result (IsEncodable effect.now) }
{
    let before = out.len();
    let done = put_effect(effect, out);
    out.settle(before, done)
}

// Appends the bytes of an effect, or a front of them.
fn put_effect(effect: &Effect, out: &mut Txt) -> Result<(), AllocError>
    requires lengths { HasLengths effect.now.change }
    requires kept { is_kept effect.now.change ≡ true → effect.now.moment ≡ 0 }
    ensures ok { OnOk result (out.new ≡ out.old ++ effect_bytes effect.now) }
    ensures front { (more : List ℕ) × (out.new ≡ out.old ++ more) }
    ensures encodable { OnOk result (IsEncodable effect.now) }
{
    put_eight(effect.moment, out)?;
    put_tag(tag_of(&effect.change), out)?;
    put_body(&effect.change, out)?;
    Ok(())
}

fn tag_of(change: &Change) -> Tag
    ensures { result ≡ tag_of change.now }
{
    match change {
        Change::Swept => Tag::Swept,
        Change::Sold(_) => Tag::Sold,
        Change::Added(facts, _) => by_cap(Tag::Added, Tag::CappedAdded, facts),
        Change::Changed(_, facts, _) => by_cap(Tag::Changed, Tag::CappedChanged, facts),
        Change::Paused(_) => Tag::Paused,
        Change::Resumed(_) => Tag::Resumed,
        Change::Billed(_) => Tag::Billed,
        Change::Lost(_) => Tag::Lost,
        Change::SoldTo(_, _) => Tag::SoldTo,
        Change::Kept(_) => Tag::Kept,
        Change::KeptSale(_) => Tag::KeptSale,
        Change::Forgot(_) => Tag::Forgot,
    }
}

// One tag where the facts have no cap, and another where they have one.
fn by_cap(plain: Tag, capped: Tag, facts: &Facts) -> Tag
    ensures { result ≡ by_cap plain capped facts.now.cap }
{
    match facts.cap() {
        None => plain,
        Some(_) => capped,
    }
}

fn put_body(change: &Change, out: &mut Txt) -> Result<(), AllocError>
    requires { HasLengths change.now }
    ensures ok { OnOk result (out.new ≡ out.old ++ body_bytes change.now) }
    ensures front { (more : List ℕ) × (out.new ≡ out.old ++ more) }
    ensures valid { OnOk result (IsChange change.now) }
{
    match change {
        Change::Swept => Ok(()),
        Change::Sold(items) => put_items(items.as_slice(), out),
        Change::Added(facts, expr) => put_record(facts, expr, out),
        Change::Changed(n, facts, expr) => put_changed(*n, facts, expr, out),
        Change::Paused(n) | Change::Resumed(n) => put_four(*n, out),
        Change::Billed(n) | Change::Lost(n) | Change::Forgot(n) => put_eight(*n, out),
        Change::SoldTo(user, items) => put_sold_to(user, items.as_slice(), out),
        Change::Kept(kept) => put_kept(kept, out),
        Change::KeptSale(row) => put_row(row, out),
    }
}

fn put_changed(n: u32, facts: &Facts, expr: &Expr, out: &mut Txt) -> Result<(), AllocError>
    ensures ok { OnOk result (out.new ≡ out.old ++ (four_bytes n ++ record_bytes facts.now expr.now)) }
    ensures front { (more : List ℕ) × (out.new ≡ out.old ++ more) }
    ensures valid { OnOk result (FitsFour n × IsRecord facts.now expr.now) }
{
    put_four(n, out)?;
    put_record(facts, expr, out)
}

fn put_sold_to(user: &Txt, items: &[SoldItem], out: &mut Txt) -> Result<(), AllocError>
    requires { IsUser user.now × AreSome items.now }
    ensures ok { OnOk result (out.new ≡ out.old ++ (text_bytes user.now ++ items_bytes items.now)) }
    ensures front { (more : List ℕ) × (out.new ≡ out.old ++ more) }
    ensures valid { OnOk result (IsUser user.now × AreItems items.now) }
{
    put_text(user.as_bytes(), out)?;
    put_items(items, out)
}

fn put_kept(kept: &KeptCampaign, out: &mut Txt) -> Result<(), AllocError>
    ensures ok { OnOk result (out.new ≡ out.old ++ kept_bytes kept.now) }
    ensures front { (more : List ℕ) × (out.new ≡ out.old ++ more) }
    ensures valid { OnOk result (IsRecord kept.now.facts kept.now.expr × IsGone kept.now.gone) }
{
    put_flag(kept.live, out)?;
    kept.facts.encode(out)?;
    put_optional_cap(kept.facts.cap(), out)?;
    kept.expr.encode(out)?;
    put_gone(&kept.gone, out)?;
    Ok(())
}
