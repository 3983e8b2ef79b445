//! The values that a predicate lists. They stay where a message has them, and mostly in its order.
ghost use Rattle.std.specs.Prelude.{◌≡◌, ◌<◌, [], get_or, length, IfOk};
ghost use Rattle.exact_json.specs.View.{tree_of};
ghost use Rattle.target_expr.specs.Kept.{in_order, rise, text_below};
ghost use Rattle.cnf_match.specs.Listed.{text_of, texts_of};

use crate::rising::is_below;
use crate::text_view::TextView;
use exact_json::Value;
use rtb_num::List;
use std::alloc::{AllocError, Global};
use std::marker::Model;

/// The texts of an array of a message, in the order in which they are written. Contracts see it as their list, in which
/// an element that is no text stands as the empty one.
#[derive(Drop)]
pub struct Listed<'a> {
    values: &'a [Value<'a>],
}

impl<'a> Model for Listed<'a> {
    ghost use Rattle.std.specs.Prelude.{List, ℕ};
    ghost use Rattle.cnf_match.specs.Listed.{texts_of};

    ghost Value = { List (List ℕ) };

    ghost view = { λ l. texts_of l.values.now };
}

impl<'a> Listed<'a> {
    /// The texts of these elements.
    #[inline(always)]
    pub fn new(values: &'a [Value<'a>]) -> Listed<'a>
        ensures { result ≡ texts_of values.now }
    {
        Listed { values }
    }

    // How many there are.
    #[inline(always)]
    pub(crate) fn len(&self) -> usize
        ensures { result ≡ length self.now }
    {
        self.values.len()
    }

    // The one at the place.
    #[inline(always)]
    pub(crate) fn get(&self, place: usize) -> &'a [u8]
        requires { place < length self.now }
        ensures { result.now ≡ get_or self.now place [] }
    {
        text_at(self.values, place)
    }
}

// The text at the place.
#[inline(always)]
fn text_at<'a>(values: &[Value<'a>], place: usize) -> &'a [u8]
    requires { place < length values.now }
    ensures { result.now ≡ get_or (texts_of values.now) place [] }
{
    text_of(&values[place])
}

// The text, or no byte.
#[inline(always)]
#[tactic(auto, unfolding(crate::specs::Listed::text_of))]
fn text_of<'a>(value: &Value<'a>) -> &'a [u8]
    ensures { result.now ≡ text_of (tree_of value.now) }
{
    match value {
        Value::Str(text) => *text,
        _ => &[],
    }
}

// Values in byte order, each once: those that are written so, or else in memory of their own.
#[derive(Drop)]
enum Kept<'a> {
    Written(Listed<'a>),
    Sorted(List<TextView<'a>>),
}

// The values of a predicate. Contracts see it as their list.
#[derive(Drop)]
pub(crate) struct Values<'a> {
    kept: Kept<'a>,
}

impl<'a> Model for Values<'a> {
    ghost use Rattle.std.specs.Prelude.{List, ℕ};
    ghost use Rattle.cnf_match.specs.Values.{values_of};

    ghost Value = { List (List ℕ) };

    ghost view = { λ v. values_of v.kept };
}

impl<'a> Values<'a> {
    // The texts in byte order, each once. Mostly they are written so.
    #[inline(always)]
    #[tactic(auto, using(target_expr::proofs::ByteOrder::risen_in_order))]
    pub(crate) fn in_order(alloc: Global, texts: Listed<'a>) -> Result<Values<'a>, AllocError>
        ensures { IfOk result (λ values. values ≡ in_order texts.entry) }
    {
        if do_rise(&texts) {
            return Ok(Values {
                kept: Kept::Written(texts),
            });
        }
        let sorted = sorted(alloc, &texts)?;
        Ok(Values {
            kept: Kept::Sorted(sorted),
        })
    }

    // How many there are.
    #[inline(always)]
    pub(crate) fn len(&self) -> usize
        ensures { result ≡ length self.now }
    {
        match &self.kept {
            Kept::Written(texts) => texts.len(),
            Kept::Sorted(texts) => texts.len(),
        }
    }

    // The one at the place.
    #[inline(always)]
    pub(crate) fn get(&self, place: usize) -> &'a [u8]
        requires { place < length self.now }
        ensures { result.now ≡ get_or self.now place [] }
    {
        match &self.kept {
            Kept::Written(texts) => texts.get(place),
            Kept::Sorted(texts) => texts.as_slice()[place].as_bytes(),
        }
    }
}

// Whether each is below the next.
fn do_rise(texts: &Listed<'_>) -> bool
    ensures { result ≡ rise text_below texts.now }
{
    for i in 1..texts.len() {
        if !is_below(texts.get(i - 1), texts.get(i)) {
            return false;
        }
    }
    true
}

// The texts in byte order, each once.
fn sorted<'a>(alloc: Global, texts: &Listed<'a>) -> Result<List<TextView<'a>>, AllocError>
    ensures { IfOk result (λ sorted. sorted ≡ in_order texts.now) }
{
    let mut kept = views(alloc, texts)?;
    kept.sort_unstable();
    kept.dedup();
    Ok(List::from_vec(kept))
}

fn views<'a>(alloc: Global, texts: &Listed<'a>) -> Result<Vec<TextView<'a>>, AllocError>
    ensures { IfOk result (λ views. views.items ≡ texts.now) }
{
    let mut views = Vec::with_capacity(alloc, texts.len())?;
    for place in 0..texts.len() {
        views.push(TextView::new(texts.get(place)))?;
    }
    Ok(views)
}
