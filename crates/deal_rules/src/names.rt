//! The texts of a list, put in order, so that a look for one takes few steps.
ghost use Rattle.std.specs.Prelude.{◌≡◌, map, IfOk};
ghost use Rattle.deal_rules.specs.Named.{ids_of};

use crate::texts::Texts;
use rtb_num::Txt;
use rtb_types::Deal;
use std::alloc::{AllocError, Global};
use std::marker::Model;

// A list of fewer texts than this has no marks.
const MARKED: usize = 8;

/// The texts of a list, put in order once. Contracts see it as the list.
#[derive(Drop)]
pub(crate) struct Names<'a> {
    texts: &'a [Txt],
    ordered: Texts<'a>,
}

impl<'a> Model for Names<'a> {
    ghost use Rattle.std.specs.Prelude.{ℕ, List};
    ghost use Rattle.deal_rules.specs.Named.{HaveSame};

    ghost Value = { List (List ℕ) };

    ghost view = { λ n. n.texts.now };

    ghost invariant = { λ n. HaveSame n.texts.now n.ordered };
}

impl<'a> Names<'a> {
    ghost use Rattle.std.specs.Prelude.{◌≡◌, ◌&&◌, ◌||◌, ℕ, List, false, IfOk};
    ghost use Rattle.std.specs.List.{list_any};
    ghost use Rattle.campaign.specs.Marks.{mark_of};
    ghost use Rattle.deal_rules.specs.Rules.{allows, has_text};

    /// Puts the texts in order.
    pub fn new(alloc: Global, texts: &'a [Txt]) -> Result<Names<'a>, AllocError>
        ensures { IfOk result (λ n. n ≡ texts.now) }
    {
        let references = references(alloc, texts)?;
        let ordered = Texts::new(alloc, references, MARKED)?;
        Ok(Names { texts, ordered })
    }

    /// Whether the text is one of them, byte for byte.
    pub fn has(&self, text: &Txt) -> bool
        ensures { result ≡ has_text self.now text.now }
    {
        self.ordered.has(text)
    }

    /// The same of a text whose mark is known.
    #[inline(always)]
    pub fn has_marked(&self, mark: u16, text: &Txt) -> bool
        requires { mark ≡ mark_of text.now }
        ensures { result ≡ has_text self.now text.now }
    {
        self.ordered.has_marked(mark, text)
    }

    /// Whether one of them may have the mark.
    #[inline(always)]
    pub fn may_have_mark(&self, mark: u16) -> bool
        ensures { (text : List ℕ) → mark ≡ mark_of text → result ≡ false → has_text self.now text ≡ false }
    {
        self.ordered.may_have_mark(mark)
    }

    /// Whether the text is one of them; all are where there is none.
    pub fn allows(&self, text: &Txt) -> bool
        ensures { result ≡ allows self.now text.now }
    {
        self.texts.is_empty() || self.has(text)
    }

    /// Whether one of these texts is one of them.
    pub fn has_one_of(&self, some: &[Txt]) -> bool
        ensures { result ≡ list_any (has_text self.now) some.now }
    {
        some.iter().any(|text| self.has(text))
    }
}

/// The ids of deals, put in order once. Contracts see it as the list of the ids.
#[derive(Drop)]
pub(crate) struct Ids<'a> {
    deals: &'a [Deal],
    ordered: Texts<'a>,
}

impl<'a> Model for Ids<'a> {
    ghost use Rattle.std.specs.Prelude.{ℕ, List};
    ghost use Rattle.deal_rules.specs.Named.{HaveSame, ids_of};

    ghost Value = { List (List ℕ) };

    ghost view = { λ n. ids_of n.deals.now };

    ghost invariant = { λ n. HaveSame (ids_of n.deals.now) n.ordered };
}

impl<'a> Ids<'a> {
    ghost use Rattle.std.specs.Prelude.{◌≡◌, ℕ, List, false, IfOk};
    ghost use Rattle.std.specs.List.{list_any};
    ghost use Rattle.campaign.specs.Marks.{mark_of};
    ghost use Rattle.deal_rules.specs.Named.{ids_of};
    ghost use Rattle.deal_rules.specs.Rules.{has_text};

    /// Puts the ids of the deals in order. Also a single one has its mark.
    pub fn new(alloc: Global, deals: &'a [Deal]) -> Result<Ids<'a>, AllocError>
        ensures { IfOk result (λ n. n ≡ ids_of deals.now) }
    {
        let references = id_references(alloc, deals)?;
        let ordered = Texts::new(alloc, references, 1)?;
        Ok(Ids { deals, ordered })
    }

    /// Whether one of these ids is one of them.
    pub fn has_one_of(&self, some: &[Txt]) -> bool
        ensures { result ≡ list_any (has_text self.now) some.now }
    {
        some.iter().any(|id| self.has(id))
    }

    /// Whether one of them may have the mark.
    #[inline(always)]
    pub fn may_have_mark(&self, mark: u16) -> bool
        ensures { (id : List ℕ) → mark ≡ mark_of id → result ≡ false → has_text self.now id ≡ false }
    {
        self.ordered.may_have_mark(mark)
    }

    fn has(&self, id: &Txt) -> bool
        ensures { result ≡ has_text self.now id.now }
    {
        self.ordered.has(id)
    }
}

fn references<'a>(alloc: Global, texts: &'a [Txt]) -> Result<Vec<&'a Txt>, AllocError>
    ensures { IfOk result (λ v. map (λ t. t.now) v.items ≡ texts.now) }
{
    let mut all = Vec::with_capacity(alloc, texts.len())?;
    for text in texts {
        all.push(text)?;
    }
    Ok(all)
}

fn id_references<'a>(alloc: Global, deals: &'a [Deal]) -> Result<Vec<&'a Txt>, AllocError>
    ensures { IfOk result (λ v. map (λ t. t.now) v.items ≡ ids_of deals.now) }
{
    let mut all = Vec::with_capacity(alloc, deals.len())?;
    for deal in deals {
        all.push(&deal.id)?;
    }
    Ok(all)
}
