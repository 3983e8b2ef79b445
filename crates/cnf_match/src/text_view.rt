//! A text that stands in memory of someone else's.
ghost use Rattle.std.specs.Prelude.{◌≡◌, nat_eq, Some};
ghost use Rattle.std.specs.Ordering.{nat_cmp};
ghost use Rattle.std.specs.Cmp;
ghost use Rattle.std.specs.Cmp.Lexicographic.{pointwise, slice_cmp, nat_list_eq_equiv, nat_list_cmp_total, texts_ties, texts_po};
ghost use Rattle.std.proofs.Common.{refl};

use std::cmp::Ordering;
use std::marker::Model;

/// A text that stands in memory of someone else's, as in a message that was read. Contracts see it as the list of its
/// bytes.
///
/// Two texts compare byte for byte.
#[derive(Drop)]
pub struct TextView<'a> {
    bytes: &'a [u8],
}

impl<'a> Model for TextView<'a> {
    ghost use Rattle.std.specs.Prelude.{List, ℕ};

    ghost Value = { List ℕ };

    ghost view = { λ t. t.bytes.now };
}

impl<'a> TextView<'a> {
    /// The text of these bytes.
    #[inline(always)]
    pub fn new(bytes: &'a [u8]) -> TextView<'a>
        ensures { result ≡ bytes.now }
    {
        TextView { bytes }
    }

    /// The bytes.
    #[inline(always)]
    pub fn as_bytes(&self) -> &'a [u8]
        ensures { result.now ≡ self.now }
    {
        self.bytes
    }
}

impl<'a> PartialEq for TextView<'a> {
    ghost eq = { λ x y. pointwise nat_eq x y };

    ghost laws = { Cmp.partial_equiv_from_equiv nat_list_eq_equiv };

    fn eq(&self, other: &TextView<'a>) -> bool {
        self.as_bytes() == other.as_bytes()
    }
}

impl<'a> Eq for TextView<'a> {
    ghost laws = { nat_list_eq_equiv };
}

impl<'a> PartialOrd for TextView<'a> {
    ghost partial_cmp = { λ x y. Some (slice_cmp nat_cmp x y) };

    ghost laws = { texts_po };

    fn partial_cmp(&self, other: &TextView<'a>) -> Option<Ordering> {
        Some(self.cmp(other))
    }
}

impl<'a> Ord for TextView<'a> {
    ghost cmp = { λ x y. slice_cmp nat_cmp x y };

    ghost total = { nat_list_cmp_total };

    ghost matches_partial_cmp = { λ x y. refl };

    ghost matches_eq = { λ x y. texts_ties x y };

    fn cmp(&self, other: &TextView<'a>) -> Ordering {
        self.as_bytes().cmp(other.as_bytes())
    }
}
