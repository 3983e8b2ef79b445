//! The attribute of a name, found by its length and two of its letters.
ghost use Rattle.std.specs.Prelude.{◌≡◌};
ghost use Rattle.std.specs.Str.{bytes_eq};
ghost use Rattle.target_expr.specs.Attributes.{attr_named};

use target_expr::{Attr, attr_named};

// The attribute of this name, or none where no attribute has it.
#[tactic(auto, using(crate::proofs::Naming::named_so))]
pub(crate) fn attr_of(name: &[u8]) -> Option<Attr>
    ensures { result ≡ attr_named name.now }
{
    let likely = likely_attr(name);
    if are_same(likely.name(), name) {
        return Some(likely);
    }
    attr_named(name)
}

// Whether the texts are the same. Of a few bytes it is quickest to compare one after the other.
pub(crate) fn are_same(a: &[u8], b: &[u8]) -> bool
    ensures { result ≡ bytes_eq a.now b.now }
{
    if a.len() != b.len() {
        return false;
    }
    for i in 0..a.len() {
        if a[i] != b[i] {
            return false;
        }
    }
    true
}

// The only attribute that may have the name. Each of the names has a place of its own, and any other place is as good
// as none: the names are compared.
fn likely_attr(name: &[u8]) -> Attr {
    match place_of(name) {
        1 => Attr::Model,
        6 => Attr::Bundle,
        9 => Attr::Gender,
        13 => Attr::Metro,
        20 => Attr::DeviceType,
        21 => Attr::City,
        25 => Attr::ConnectionType,
        26 => Attr::Region,
        27 => Attr::Country,
        29 => Attr::Os,
        34 => Attr::Pos,
        35 => Attr::Make,
        40 => Attr::Language,
        41 => Attr::App,
        42 => Attr::Publisher,
        43 => Attr::Osv,
        52 => Attr::Zip,
        53 => Attr::Site,
        54 => Attr::TagId,
        57 => Attr::Yob,
        63 => Attr::Carrier,
        _ => Attr::Domain,
    }
}

// A place below 64, by the length of the name and two of its letters.
fn place_of(name: &[u8]) -> u8 {
    let first = name.first().copied().unwrap_or(0);
    let last = name.last().copied().unwrap_or(0);
    let length = name.len() % 64;
    let sum = (length * 2) as u8;
    sum.wrapping_add(first.wrapping_mul(3))
        .wrapping_add(last.wrapping_mul(4))
        % 64
}
