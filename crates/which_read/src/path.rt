//! The path of a field, as it is written in a refusal.
ghost use Rattle.std.specs.Prelude.{◌≡◌, ◌++◌, ℕ, List, OnOk, OnErr};
ghost use Rattle.rtb_num.specs.Paths.{place};
ghost use Rattle.which_read.specs.Paths.{entry_path, in_predicate, in_weight, inside, predicate_path, which_path};

use crate::field::WhichField;
use rtb_num::{Txt, put_item, put_member, put_name, put_place};
use std::alloc::AllocError;

impl WhichField {
    /// Appends its path, as `expressions[0].weights[1].attr`. Where memory is refused the text stays as it was.
    pub fn write(&self, out: &mut Txt) -> Result<(), AllocError>
        ensures ok { OnOk result (out.new ≡ out.old ++ which_path self.now) }
        ensures err { OnErr result (out.new ≡ out.old) }
    {
        let before = out.len();
        let written = put_path(*self, out);
        out.settle(before, written)
    }
}

// Appends the path of the field, or a front of it.
fn put_path(field: WhichField, out: &mut Txt) -> Result<(), AllocError>
    ensures ok { OnOk result (out.new ≡ out.old ++ which_path field) }
    ensures front { (more : List ℕ) × (out.new ≡ out.old ++ more) }
{
    match field {
        WhichField::N | WhichField::Assignment | WhichField::Expressions => {
            put_name(field.member(), out)
        }
        WhichField::Expression(i) => put_item(field.member(), i, out),
        WhichField::All(i) | WhichField::Weights(i) => put_inside(i, field.member(), out),
        WhichField::Clause(i, j) | WhichField::Weight(i, j) => {
            put_entry(i, field.member(), j, out)
        }
        WhichField::Predicate(i, j, k) => put_predicate(i, j, k, out),
        WhichField::PredicateAttr(i, j, k) | WhichField::In(i, j, k) | WhichField::Not(i, j, k) =>
            put_in_predicate(i, j, k, field.member(), out),
        WhichField::InItem(i, j, k, l) | WhichField::NotItem(i, j, k, l) => {
            put_value(i, j, k, field.member(), l, out)
        }
        WhichField::WeightAttr(i, j)
        | WhichField::WeightValue(i, j)
        | WhichField::WeightNumber(i, j) => put_in_weight(i, j, field.member(), out),
    }
}

// Appends the path of a value of a predicate, or a front of it.
fn put_value(
    i: usize,
    j: usize,
    k: usize,
    name: &[u8],
    l: usize,
    out: &mut Txt,
) -> Result<(), AllocError>
    ensures ok { OnOk result (out.new ≡ out.old ++ (in_predicate i j k name.now ++ place l)) }
    ensures front { (more : List ℕ) × (out.new ≡ out.old ++ more) }
{
    put_in_predicate(i, j, k, name, out)?;
    put_place(l, out)?;
    Ok(())
}

// Appends the path of a member of a predicate, or a front of it.
fn put_in_predicate(
    i: usize,
    j: usize,
    k: usize,
    name: &[u8],
    out: &mut Txt,
) -> Result<(), AllocError>
    ensures ok { OnOk result (out.new ≡ out.old ++ in_predicate i j k name.now) }
    ensures front { (more : List ℕ) × (out.new ≡ out.old ++ more) }
{
    put_predicate(i, j, k, out)?;
    put_member(name, out)?;
    Ok(())
}

// Appends the path of a predicate, or a front of it.
fn put_predicate(i: usize, j: usize, k: usize, out: &mut Txt) -> Result<(), AllocError>
    ensures ok { OnOk result (out.new ≡ out.old ++ predicate_path i j k) }
    ensures front { (more : List ℕ) × (out.new ≡ out.old ++ more) }
{
    put_entry(i, WhichField::All(i).member(), j, out)?;
    put_place(k, out)?;
    Ok(())
}

// Appends the path of a member of a weight, or a front of it.
fn put_in_weight(i: usize, j: usize, name: &[u8], out: &mut Txt) -> Result<(), AllocError>
    ensures ok { OnOk result (out.new ≡ out.old ++ in_weight i j name.now) }
    ensures front { (more : List ℕ) × (out.new ≡ out.old ++ more) }
{
    put_entry(i, WhichField::Weights(i).member(), j, out)?;
    put_member(name, out)?;
    Ok(())
}

// Appends the path of an entry of a list of an expression, or a front of it.
fn put_entry(i: usize, name: &[u8], j: usize, out: &mut Txt) -> Result<(), AllocError>
    ensures ok { OnOk result (out.new ≡ out.old ++ entry_path i name.now j) }
    ensures front { (more : List ℕ) × (out.new ≡ out.old ++ more) }
{
    put_inside(i, name, out)?;
    put_place(j, out)?;
    Ok(())
}

// Appends the path of a member of an expression, or a front of it.
fn put_inside(i: usize, name: &[u8], out: &mut Txt) -> Result<(), AllocError>
    ensures ok { OnOk result (out.new ≡ out.old ++ inside i name.now) }
    ensures front { (more : List ℕ) × (out.new ≡ out.old ++ more) }
{
    put_item(WhichField::Expressions.member(), i, out)?;
    put_member(name, out)?;
    Ok(())
}
