//! The fields of a campaign's body.
ghost use Rattle.std.specs.Prelude.{◌≡◌};
ghost use Rattle.campaign.specs.Paths.{member_name};

/// A field of a campaign's body, with its places in arrays.
///
/// Places are counted from 0. `write` gives its path, as `cat[2]` and `target[0][1].attr`.
#[derive(Clone, Copy)]
pub enum CampField {
    Seat,
    Adomain,
    Cat,
    CatItem(usize),
    W,
    H,
    Attr,
    AttrItem(usize),
    Secure,
    Bid,
    Deals,
    DealsItem(usize),
    Budget,
    Adm,
    Crid,
    Adid,
    Cap,
    CapCount,
    CapSeconds,
    Target,
    /// A conjunction of the target.
    Conjunction(usize),
    /// A predicate, by the places of its conjunction and of its own.
    Predicate(usize, usize),
    /// The attribute of a predicate.
    PredicateAttr(usize, usize),
    /// The list of values that a predicate admits.
    In(usize, usize),
    InItem(usize, usize, usize),
    /// The list of values that a predicate excludes.
    Not(usize, usize),
    NotItem(usize, usize, usize),
}

impl CampField {
    /// The name that it has as a member of its object; that of the list for an entry of a list.
    pub fn member(self) -> &'static [u8]
        ensures { result.now ≡ member_name self }
    {
        match self {
            CampField::Seat => b"seat",
            CampField::Adomain => b"adomain",
            CampField::Cat | CampField::CatItem(_) => b"cat",
            CampField::W => b"w",
            CampField::H => b"h",
            CampField::Attr | CampField::AttrItem(_) => b"attr",
            CampField::Secure => b"secure",
            CampField::Bid => b"bid",
            CampField::Deals | CampField::DealsItem(_) => b"deals",
            CampField::Budget => b"budget",
            CampField::Adm => b"adm",
            CampField::Crid => b"crid",
            CampField::Adid => b"adid",
            CampField::Cap => b"cap",
            CampField::CapCount => b"count",
            CampField::CapSeconds => b"seconds",
            CampField::Target | CampField::Conjunction(_) | CampField::Predicate(_, _) => b"target",
            CampField::PredicateAttr(_, _) => b"attr",
            CampField::In(_, _) | CampField::InItem(_, _, _) => b"in",
            CampField::Not(_, _) | CampField::NotItem(_, _, _) => b"not",
        }
    }
}
