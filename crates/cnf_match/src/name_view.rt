//! The name of an attribute, as it is written, with the attribute that has it.
ghost use Rattle.std.specs.Prelude.{◌≡◌};
ghost use Rattle.target_expr.specs.Attributes.{attr_named};

use crate::names::attr_of;
use std::marker::Model;
use target_expr::Attr;

/// The name of an attribute, as it is written in memory of someone else's. Contracts see it as the list of its bytes.
///
/// It keeps the attribute that has the name, which so is looked for once.
#[derive(Drop)]
pub struct NameView<'a> {
    bytes: &'a [u8],
    attr: Option<Attr>,
}

impl<'a> Model for NameView<'a> {
    ghost use Rattle.std.specs.Prelude.{◌≡◌, List, ℕ};
    ghost use Rattle.target_expr.specs.Attributes.{attr_named};

    ghost Value = { List ℕ };

    ghost view = { λ n. n.bytes.now };

    ghost invariant = { λ n. n.attr ≡ attr_named n.bytes.now };
}

impl<'a> NameView<'a> {
    /// The name of these bytes.
    #[inline(always)]
    pub fn new(bytes: &'a [u8]) -> NameView<'a>
        ensures { result ≡ bytes.now }
    {
        NameView {
            bytes,
            attr: attr_of(bytes),
        }
    }

    /// The bytes.
    #[inline(always)]
    pub fn as_bytes(&self) -> &'a [u8]
        ensures { result.now ≡ self.now }
    {
        self.bytes
    }

    /// The attribute of this name, or none where no attribute has it.
    #[inline(always)]
    pub fn attr(&self) -> Option<Attr>
        ensures { result ≡ attr_named self.now }
    {
        self.attr
    }
}
