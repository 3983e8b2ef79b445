//! The fields of a request for the best expressions.
ghost use Rattle.std.specs.Prelude.{◌≡◌};
ghost use Rattle.which_read.specs.Paths.{item_of, member_name};

/// A field of a request for the best expressions, with its places in arrays.
///
/// Places are counted from 0: that of the expression, of its clause, of the predicate in it, and of a value. `write`
/// gives its path, as `expressions[0].all[1][2].in[3]`.
#[derive(Clone, Copy)]
pub enum WhichField {
    N,
    Assignment,
    Expressions,
    Expression(usize),
    All(usize),
    Clause(usize, usize),
    Predicate(usize, usize, usize),
    /// The attribute of a predicate.
    PredicateAttr(usize, usize, usize),
    /// The list of values that a predicate admits.
    In(usize, usize, usize),
    InItem(usize, usize, usize, usize),
    /// The list of values that a predicate excludes.
    Not(usize, usize, usize),
    NotItem(usize, usize, usize, usize),
    Weights(usize),
    Weight(usize, usize),
    /// The attribute that is weighed.
    WeightAttr(usize, usize),
    /// The value that is weighed.
    WeightValue(usize, usize),
    /// What it weighs.
    WeightNumber(usize, usize),
}

impl WhichField {
    /// The name that it has as a member of its object; that of the list for an entry of a list.
    pub fn member(self) -> &'static [u8]
        ensures { result.now ≡ member_name self }
    {
        match self {
            WhichField::N => b"n",
            WhichField::Assignment => b"assignment",
            WhichField::Expressions | WhichField::Expression(_) => b"expressions",
            WhichField::All(_) | WhichField::Clause(_, _) | WhichField::Predicate(_, _, _) =>
                b"all",
            WhichField::PredicateAttr(_, _, _) | WhichField::WeightAttr(_, _) => b"attr",
            WhichField::In(_, _, _) | WhichField::InItem(_, _, _, _) => b"in",
            WhichField::Not(_, _, _) | WhichField::NotItem(_, _, _, _) => b"not",
            WhichField::Weights(_) | WhichField::Weight(_, _) => b"weights",
            WhichField::WeightValue(_, _) => b"value",
            WhichField::WeightNumber(_, _) => b"weight",
        }
    }
    /// The element at a place of a list of values; any other field is itself.
    pub(crate) fn item(self, place: usize) -> WhichField
        ensures { result ≡ item_of self place }
    {
        match self {
            WhichField::In(i, j, k) => WhichField::InItem(i, j, k, place),
            WhichField::Not(i, j, k) => WhichField::NotItem(i, j, k, place),
            field => field,
        }
    }
}
