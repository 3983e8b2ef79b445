//! Texts in order, so that a look for one takes few steps.
ghost use Rattle.std.specs.Prelude.{◌≡◌, ◌<◌, ℕ, Bool, List, false, fold, length, map, set, true, IfOk};
ghost use Rattle.std.specs.List.{list_any};
ghost use Rattle.std.specs.Str.{bytes_eq};
ghost use Rattle.campaign.specs.Marks.{mark_of};
ghost use Rattle.deal_rules.specs.Marks.{is_marked_at, with_mark};
ghost use Rattle.deal_rules.specs.Named.{AreInOrder, MayBeMarked};
ghost use Rattle.deal_rules.specs.Rules.{has_text};

use campaign::{MARKS, mark_of};
use rtb_num::Txt;
use std::alloc::{AllocError, Global};
use std::marker::Model;

// A list of `FEW` texts or fewer is not put in order: each of them is looked at where no mark tells.
const FEW: usize = 128;

/// Texts, in order where they are many. Most others are told from them by a mark, without a look. Contracts see it as the
/// list of the texts, in their order.
#[derive(Drop)]
pub(crate) struct Texts<'a> {
    texts: Vec<&'a Txt>,
    // Whether one of them has the mark; none where they are few.
    marks: Vec<bool>,
}

impl<'a> Model for Texts<'a> {
    ghost use Rattle.std.specs.Prelude.{ℕ, List, map};
    ghost use Rattle.deal_rules.specs.Named.{IsOrdered};

    ghost Value = { List (List ℕ) };

    ghost view = { λ o. map (λ t. t.now) o.texts.items };

    ghost invariant = { λ o. IsOrdered o.texts.items o.marks.items };
}

impl<'a> Texts<'a> {
    ghost use Rattle.std.specs.Prelude.{◌≡◌, ℕ, Bool, List, false, map, IfOk};
    ghost use Rattle.std.specs.List.{list_any};
    ghost use Rattle.campaign.specs.Marks.{mark_of};
    ghost use Rattle.deal_rules.specs.Rules.{has_text};

    /// Puts the texts in order, where they are many. They have marks where they are at least so many.
    pub fn new(alloc: Global, texts: Vec<&'a Txt>, least: usize) -> Result<Texts<'a>, AllocError>
        ensures { IfOk result (λ o. (p : List ℕ → Bool) → list_any p (map (λ t. t.now) texts.entry.items) ≡ list_any p o) }
    {
        let texts = in_order(texts);
        let marks = marks_of(alloc, texts.as_slice(), least)?;
        Ok(Texts { texts, marks })
    }

    /// Whether the text is one of them, byte for byte.
    #[inline(always)]
    pub fn has(&self, text: &Txt) -> bool
        ensures { result ≡ has_text self.now text.now }
    {
        self.may_have(text) && self.finds(text)
    }

    /// The same of a text whose mark is known: mostly the text is not looked at.
    #[inline(always)]
    pub fn has_marked(&self, mark: u16, text: &Txt) -> bool
        requires { mark ≡ mark_of text.now }
        ensures { result ≡ has_text self.now text.now }
    {
        self.may_have_mark(mark) && self.finds(text)
    }

    /// Whether one of them may have the mark.
    #[inline(always)]
    pub fn may_have_mark(&self, mark: u16) -> bool
        ensures { (text : List ℕ) → mark ≡ mark_of text → result ≡ false → has_text self.now text ≡ false }
    {
        may_have_mark(self.marks.as_slice(), self.texts.as_slice(), mark)
    }

    // Whether it may be one of them: where a mark does not rule it out.
    #[inline(always)]
    fn may_have(&self, text: &Txt) -> bool
        ensures { result ≡ false → has_text self.now text.now ≡ false }
    {
        may_be_among(self.marks.as_slice(), self.texts.as_slice(), text)
    }

    // Whether a look finds it.
    #[inline(never)]
    fn finds(&self, text: &Txt) -> bool
        ensures { result ≡ has_text self.now text.now }
    {
        is_among(self.texts.as_slice(), text)
    }
}

// Whether the text may be one of these, which have these marks.
#[inline(always)]
fn may_be_among(marks: &[bool], texts: &[&Txt], text: &Txt) -> bool
    requires { MayBeMarked marks.now texts.now }
    ensures { result ≡ false → has_text (map (λ t. t.now) texts.now) text.now ≡ false }
{
    if marks.is_empty() {
        return !texts.is_empty();
    }
    is_marked(marks, mark_of(text))
}

// Whether a text with the mark may be one of these, which have these marks.
#[inline(always)]
fn may_have_mark(marks: &[bool], texts: &[&Txt], mark: u16) -> bool
    requires { MayBeMarked marks.now texts.now }
    ensures { (text : List ℕ) → mark ≡ mark_of text → result ≡ false → has_text (map (λ t. t.now) texts.now) text ≡ false }
{
    if marks.is_empty() {
        return !texts.is_empty();
    }
    is_marked(marks, mark)
}

// Whether the text is one of these, which stand in order where they are many.
fn is_among(texts: &[&Txt], text: &Txt) -> bool
    requires { AreInOrder texts.now }
    ensures { result ≡ has_text (map (λ t. t.now) texts.now) text.now }
{
    if texts.len() <= FEW {
        return has_same(texts, text);
    }
    texts.binary_search(&text).is_ok()
}

// Whether one of them is the text.
fn has_same(texts: &[&Txt], text: &Txt) -> bool
    ensures { result ≡ list_any (λ t. bytes_eq t.now text.now) texts.now }
{
    texts.iter().any(|t| *t == text)
}

// The texts, in order where they are many.
fn in_order<'a>(mut texts: Vec<&'a Txt>) -> Vec<&'a Txt>
    ensures same { (p : List ℕ → Bool) → list_any p (map (λ t. t.now) texts.entry.items) ≡ list_any p (map (λ t. t.now) result.items) }
    ensures sorted { AreInOrder result.items }
{
    if texts.len() > FEW {
        texts.sort_unstable();
    }
    texts
}

// Whether some text with the mark was marked.
#[inline(always)]
fn is_marked(marks: &[bool], mark: u16) -> bool
    ensures { result ≡ is_marked_at marks.now mark }
{
    match marks.get(usize::from(mark)) {
        Some(marked) => *marked,
        None => false,
    }
}

// The marks of the texts; none where they are few.
fn marks_of(alloc: Global, texts: &[&Txt], least: usize) -> Result<Vec<bool>, AllocError>
    ensures { IfOk result (λ marks. MayBeMarked marks.items texts.now) }
{
    if texts.len() < least {
        return Ok(Vec::new(alloc));
    }
    let marks = blank(alloc, MARKS)?;
    Ok(marked(marks, texts))
}

// Those marks, with the marks of the texts.
fn marked(mut marks: Vec<bool>, texts: &[&Txt]) -> Vec<bool>
    ensures { result.items ≡ fold with_mark marks.items texts.now }
{
    set_marks(&mut marks, texts);
    marks
}

// Sets the marks of the texts.
fn set_marks(marks: &mut [bool], texts: &[&Txt])
    ensures { marks.new ≡ fold with_mark marks.old texts.now }
{
    for text in texts {
        set_mark(marks, *text);
    }
}

fn set_mark(marks: &mut [bool], text: &Txt)
    ensures { marks.new ≡ set marks.old (mark_of text.now) true }
{
    let mark = usize::from(mark_of(text));
    if mark < marks.len() {
        marks[mark] = true;
    }
}

// So many marks, none of which is set.
fn blank(alloc: Global, count: usize) -> Result<Vec<bool>, AllocError>
    ensures { IfOk result (λ marks. length marks.items ≡ count) }
{
    Ok(vec![in alloc; false; count]?)
}
