//! The campaigns that an index is to be built of.
ghost use Rattle.std.specs.Prelude.{◌≡◌, ◌≤◌, ◌<◌, ◌+◌, [], ◌∷◌, ◌++◌, length, All, OnOk, OnErr};
ghost use Rattle.conj_index.specs.Campaigns.{DoRise, conjunctions_in};

use rtb_base::Steps;
use std::alloc::{AllocError, Global};
use std::marker::Model;
use std::sync::ledger::Ledger;
use target_expr::Expr;

/// The campaigns that an index is to be built of. Contracts see it as the list of their numbers and
/// their expressions.
///
/// The numbers rise, and the expressions, which it borrows, have at most 1,000,000 conjunctions in all.
#[derive(Drop)]
pub struct Builder<'a> {
    added: Vec<Added<'a>>,
}

impl<'a> Model for Builder<'a> {
    ghost use Rattle.std.specs.Prelude.{ℕ, List, ◌≤◌, length};
    ghost use Rattle.target_expr.specs.declared.pred.Pred.{Pred};
    ghost use Rattle.conj_index.specs.Campaigns.{conjunctions_in, DoRise};

    ghost Value = { List (ℕ × List (List Pred)) };

    ghost view = { λ b. b.added.items };

    ghost invariant = { λ b. DoRise b.added.items × (conjunctions_in b.added.items ≤ 1000000) };
}

// A campaign that was added. Contracts see its number and its expression.
#[derive(Drop)]
pub(crate) struct Added<'a> {
    number: u32,
    expr: &'a Expr,
}

impl<'a> Model for Added<'a> {
    ghost use Rattle.std.specs.Prelude.{ℕ, List};
    ghost use Rattle.target_expr.specs.declared.pred.Pred.{Pred};

    ghost Value = { ℕ × List (List Pred) };

    ghost view = { λ a. (a.number, a.expr.now) };
}

impl<'a> Builder<'a> {
    /// No campaign yet. It takes no memory.
    pub fn new(alloc: Global) -> Builder<'a>
        ensures { result ≡ [] }
    {
        Builder {
            added: Vec::new(alloc),
        }
    }

    /// Adds a campaign, whose number is above those added before. Its expression is borrowed.
    ///
    /// One step is one expression. Where memory is refused, nothing is added.
    pub fn add<L: Ledger>(
        &mut self,
        number: u32,
        expr: &'a Expr,
        steps: &mut Steps<L>,
    ) -> Result<(), AllocError>
        requires above { All (λ p. p.0 < number) self.old }
        requires room { conjunctions_in (self.old ++ (number, expr.now) ∷ []) ≤ 1000000 }
        ensures ok { OnOk result (self.new ≡ self.old ++ (number, expr.now) ∷ []) }
        ensures err { OnErr result (self.new ≡ self.old) }
        ensures cost { steps.new ≤ steps.old + 1 }
    {
        steps.tick();
        self.added.push(Added { number, expr })?;
        Ok(())
    }

    // The campaigns that were added.
    pub(crate) fn into_campaigns(self) -> Vec<Added<'a>>
        ensures value { result.items ≡ self.entry }
        ensures rising { DoRise self.entry }
        ensures few { conjunctions_in self.entry ≤ 1000000 }
    {
        self.added
    }
}

impl<'a> Added<'a> {
    // The campaign's number.
    pub(crate) fn number(&self) -> u32
        ensures { result ≡ self.now.0 }
    {
        self.number
    }

    // Its expression.
    pub(crate) fn expr(&self) -> &'a Expr
        ensures { result.now ≡ self.now.1 }
    {
        self.expr
    }
}
