//! The numbers of a list, put in order, so that a look for one takes few steps.
ghost use Rattle.std.specs.Prelude.{◌≡◌, IfOk};

use std::alloc::{AllocError, Global};
use std::marker::Model;

/// The numbers of a list, put in order once. Contracts see it as the list.
#[derive(Drop)]
pub(crate) struct Numbers<'a> {
    numbers: &'a [i32],
    ordered: Vec<i32>,
}

impl<'a> Model for Numbers<'a> {
    ghost use Rattle.std.specs.Prelude.{ℤ, List};
    ghost use Rattle.deal_rules.specs.Named.{AreOrderedNumbers};

    ghost Value = { List ℤ };

    ghost view = { λ n. n.numbers.now };

    ghost invariant = { λ n. AreOrderedNumbers n.numbers.now n.ordered.items };
}

impl<'a> Numbers<'a> {
    ghost use Rattle.std.specs.Prelude.{◌≡◌, IfOk};
    ghost use Rattle.std.specs.List.{list_any};
    ghost use Rattle.std.specs.Ordering.{int_eq};

    /// Puts the numbers in order.
    pub fn new(alloc: Global, numbers: &'a [i32]) -> Result<Numbers<'a>, AllocError>
        ensures { IfOk result (λ n. n ≡ numbers.now) }
    {
        let mut ordered = Vec::from_slice(alloc, numbers)?;
        ordered.sort_unstable();
        Ok(Numbers { numbers, ordered })
    }

    /// Whether the number is one of them.
    pub fn has(&self, number: &i32) -> bool
        ensures { result ≡ list_any (λ b. int_eq b number.now) self.now }
    {
        self.ordered.binary_search(number).is_ok()
    }

    /// Whether one of these numbers is one of them.
    pub fn has_one_of(&self, some: &[i32]) -> bool
        ensures { result ≡ list_any (λ a. list_any (λ b. int_eq b a) self.now) some.now }
    {
        some.iter().any(|number| self.has(number))
    }
}
