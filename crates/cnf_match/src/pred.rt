//! Predicates whose texts stand in memory of someone else's, as they are written and as they are kept.
ghost use Rattle.std.specs.Prelude.{◌≡◌, IfOk};
ghost use Rattle.target_expr.specs.Kept.{keep_pred};

use crate::name_view::NameView;
use crate::values::{Listed, Values};
use std::alloc::{AllocError, Global};
use std::marker::Model;
use target_expr::Attr;

/// A predicate as it is written. Contracts see it as one of `target_expr`, which owns its texts.
#[derive(Drop)]
pub struct RawPred<'a> {
    attr: NameView<'a>,
    negated: bool,
    values: Listed<'a>,
}

impl<'a> Model for RawPred<'a> {
    ghost use Rattle.target_expr.specs.declared.pred.RawPred.{RawPred as Written};

    ghost Value = { Written };

    ghost view = { λ p. record { attr = p.attr; negated = p.negated; values = p.values } };
}

/// A predicate of an expression. Contracts see it as one of `target_expr`, which owns its texts.
#[derive(Drop)]
pub struct Pred<'a> {
    attr: Attr,
    negated: bool,
    values: Values<'a>,
}

impl<'a> Model for Pred<'a> {
    ghost use Rattle.target_expr.specs.declared.pred.Pred.{Pred as Kept};

    ghost Value = { Kept };

    ghost view = { λ p. record { attr = p.attr; negated = p.negated; values = p.values } };
}

impl<'a> RawPred<'a> {
    /// The predicate of the attribute's name, whether it asks that the value is none of the listed ones, and these.
    #[inline(always)]
    pub fn new(attr: NameView<'a>, negated: bool, values: Listed<'a>) -> RawPred<'a>
        ensures { result ≡ record { attr = attr.entry; negated = negated; values = values.entry } }
    {
        RawPred {
            attr,
            negated,
            values,
        }
    }

    // The attribute's name.
    #[inline(always)]
    pub(crate) fn name(&self) -> &NameView<'a>
        ensures { result.now ≡ self.now.attr }
    {
        &self.attr
    }

    // The listed values.
    #[inline(always)]
    pub(crate) fn values(&self) -> &Listed<'a>
        ensures { result.now ≡ self.now.values }
    {
        &self.values
    }

    // The predicate of that attribute, with its values in byte order, each once.
    #[inline(always)]
    pub(crate) fn kept(self, alloc: Global, attr: Attr) -> Result<Pred<'a>, AllocError>
        ensures { IfOk result (λ pred. pred ≡ keep_pred attr self.entry) }
    {
        let RawPred {
            attr: name,
            negated,
            values,
        } = self;
        drop(name);
        let values = Values::in_order(alloc, values)?;
        Ok(Pred {
            attr,
            negated,
            values,
        })
    }
}

impl<'a> Pred<'a> {
    // The attribute.
    #[inline(always)]
    pub(crate) fn attr(&self) -> Attr
        ensures { result ≡ self.now.attr }
    {
        self.attr
    }

    // Whether it asks that the value is none of the listed ones.
    #[inline(always)]
    pub(crate) fn is_negated(&self) -> bool
        ensures { result ≡ self.now.negated }
    {
        self.negated
    }

    // The listed values, in byte order, each once.
    #[inline(always)]
    pub(crate) fn values(&self) -> &Values<'a>
        ensures { result.now ≡ self.now.values }
    {
        &self.values
    }
}
