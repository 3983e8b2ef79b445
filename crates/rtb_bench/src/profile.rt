//! How attributes and their values are drawn: selective or broad.
use target_expr::Attr;

/// An attribute, and how its values are drawn. A number of bits is drawn from `least` on, of `widths`
/// many, and then a value of so many bits: value v comes about as 1 / (v + 2^`least`), by the law of
/// Zipf and Mandelbrot.
#[derive(Clone, Copy)]
pub struct Field {
    pub attr: Attr,
    pub least: u8,
    pub widths: u8,
}

// Attributes with thousands of values: each campaign wants few impressions.
const SELECTIVE: [Field; 8] = [
    Field {
        attr: Attr::Domain,
        least: 5,
        widths: 9,
    },
    Field {
        attr: Attr::Site,
        least: 5,
        widths: 9,
    },
    Field {
        attr: Attr::Bundle,
        least: 5,
        widths: 9,
    },
    Field {
        attr: Attr::Publisher,
        least: 5,
        widths: 8,
    },
    Field {
        attr: Attr::City,
        least: 5,
        widths: 9,
    },
    Field {
        attr: Attr::Zip,
        least: 5,
        widths: 10,
    },
    Field {
        attr: Attr::Model,
        least: 5,
        widths: 7,
    },
    Field {
        attr: Attr::TagId,
        least: 5,
        widths: 9,
    },
];

// Attributes with few values: each campaign wants many impressions.
const BROAD: [Field; 8] = [
    Field {
        attr: Attr::Country,
        least: 1,
        widths: 4,
    },
    Field {
        attr: Attr::DeviceType,
        least: 1,
        widths: 2,
    },
    Field {
        attr: Attr::Make,
        least: 1,
        widths: 4,
    },
    Field {
        attr: Attr::Os,
        least: 1,
        widths: 2,
    },
    Field {
        attr: Attr::Language,
        least: 1,
        widths: 4,
    },
    Field {
        attr: Attr::ConnectionType,
        least: 1,
        widths: 2,
    },
    Field {
        attr: Attr::Gender,
        least: 1,
        widths: 1,
    },
    Field {
        attr: Attr::Pos,
        least: 1,
        widths: 2,
    },
];

/// The attributes of the profile: of `broad`, or else of `selective`.
pub fn fields_of(profile: &[u8]) -> &'static [Field; 8] {
    if profile == b"broad".as_slice() {
        &BROAD
    } else {
        &SELECTIVE
    }
}
