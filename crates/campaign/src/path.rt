//! The path of a field of a campaign's body, as it is written in a refusal.
ghost use Rattle.std.specs.Prelude.{◌≡◌, ◌++◌, ℕ, List, OnOk, OnErr, codes};
ghost use Rattle.campaign.specs.Paths.{camp_path, member_name, predicate_path};
ghost use Rattle.rtb_num.specs.Paths.{place};

use crate::field::CampField;
use rtb_num::{Txt, put_item, put_member, put_name, put_place};
use std::alloc::AllocError;

impl CampField {
    /// Appends its path, as `cat[2]` and `target[0][1].in[3]`. Where memory is refused the text stays
    /// as it was.
    pub fn write(&self, out: &mut Txt) -> Result<(), AllocError>
        ensures ok { OnOk result (out.new ≡ out.old ++ camp_path self.now) }
        ensures err { OnErr result (out.new ≡ out.old) }
    {
        let before = out.len();
        let written = put_path(*self, out);
        out.settle(before, written)
    }
}

// Appends the path of the field, or a front of it.
fn put_path(field: CampField, out: &mut Txt) -> Result<(), AllocError>
    ensures ok { OnOk result (out.new ≡ out.old ++ camp_path field) }
    ensures front { (more : List ℕ) × (out.new ≡ out.old ++ more) }
{
    match field {
        CampField::Seat
        | CampField::Adomain
        | CampField::Cat
        | CampField::W
        | CampField::H
        | CampField::Attr
        | CampField::Secure
        | CampField::Bid
        | CampField::Deals
        | CampField::Budget
        | CampField::Adm
        | CampField::Crid
        | CampField::Adid
        | CampField::Cap
        | CampField::Target => put_name(field.member(), out),
        CampField::CatItem(place) | CampField::AttrItem(place) | CampField::DealsItem(place) => {
            put_item(field.member(), place, out)
        }
        CampField::CapCount | CampField::CapSeconds => put_in_cap(field, out),
        CampField::Conjunction(i) => put_item(field.member(), i, out),
        CampField::Predicate(i, j) => put_predicate(i, j, out),
        CampField::PredicateAttr(i, j) | CampField::In(i, j) | CampField::Not(i, j) => {
            put_inside(i, j, field, out)
        }
        CampField::InItem(i, j, place) | CampField::NotItem(i, j, place) => {
            put_item_inside(i, j, place, field, out)
        }
    }
}

// Appends the path of a member of the cap, or a front of it.
fn put_in_cap(field: CampField, out: &mut Txt) -> Result<(), AllocError>
    ensures ok { OnOk result (out.new ≡ out.old ++ (codes "cap" ++ codes "." ++ member_name field)) }
    ensures front { (more : List ℕ) × (out.new ≡ out.old ++ more) }
{
    put_name(CampField::Cap.member(), out)?;
    put_member(field.member(), out)
}

// Appends the path of an entry of a list of a predicate, or a front of it.
fn put_item_inside(
    i: usize,
    j: usize,
    entry: usize,
    field: CampField,
    out: &mut Txt,
) -> Result<(), AllocError>
    ensures ok { OnOk result (out.new ≡ out.old ++ (predicate_path i j ++ codes "." ++ member_name field ++ place entry)) }
    ensures front { (more : List ℕ) × (out.new ≡ out.old ++ more) }
{
    put_inside(i, j, field, out)?;
    put_place(entry, out)?;
    Ok(())
}

// Appends the path of a member of a predicate, or a front of it.
fn put_inside(i: usize, j: usize, field: CampField, out: &mut Txt) -> Result<(), AllocError>
    ensures ok { OnOk result (out.new ≡ out.old ++ (predicate_path i j ++ codes "." ++ member_name field)) }
    ensures front { (more : List ℕ) × (out.new ≡ out.old ++ more) }
{
    put_predicate(i, j, out)?;
    put_member(field.member(), out)?;
    Ok(())
}

// Appends the path of a predicate, or a front of it.
fn put_predicate(conjunction: usize, predicate: usize, out: &mut Txt) -> Result<(), AllocError>
    ensures ok { OnOk result (out.new ≡ out.old ++ predicate_path conjunction predicate) }
    ensures front { (more : List ℕ) × (out.new ≡ out.old ++ more) }
{
    put_item(CampField::Target.member(), conjunction, out)?;
    put_place(predicate, out)?;
    Ok(())
}
