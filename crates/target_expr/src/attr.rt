//! The attributes of an impression that expressions may speak of.
ghost use Rattle.std.specs.Prelude.{◌≡◌, ◌≤◌, codes};
ghost use Rattle.target_expr.specs.Attributes.{attributes, name_of, attr_named, number_of, attr_numbered};

/// An attribute of an impression that an expression may speak of. Each is a field of a bid request
/// (OpenRTB 2.5, sections 3.2.4 to 3.2.20).
#[derive(Clone, Copy, Debug, PartialEq, Eq, Hash)]
pub enum Attr {
    /// `site.domain`
    Domain = 1,
    /// `site.id`
    Site = 2,
    /// `app.bundle`
    Bundle = 3,
    /// `app.id`
    App = 4,
    /// `site.publisher.id`, or else `app.publisher.id`
    Publisher = 5,
    /// `device.geo.country`
    Country = 6,
    /// `device.geo.region`
    Region = 7,
    /// `device.geo.metro`
    Metro = 8,
    /// `device.geo.city`
    City = 9,
    /// `device.geo.zip`
    Zip = 10,
    /// `device.devicetype`
    DeviceType = 11,
    /// `device.make`
    Make = 12,
    /// `device.model`
    Model = 13,
    /// `device.os`
    Os = 14,
    /// `device.osv`
    Osv = 15,
    /// `device.language`
    Language = 16,
    /// `device.carrier`
    Carrier = 17,
    /// `device.connectiontype`
    ConnectionType = 18,
    /// `user.yob`
    Yob = 19,
    /// `user.gender`
    Gender = 20,
    /// `imp.tagid`
    TagId = 21,
    /// `imp.banner.pos`
    Pos = 22,
}

// All attributes, in the order of their numbers.
pub(crate) const ATTRIBUTES: [Attr; 22] = [
    Attr::Domain,
    Attr::Site,
    Attr::Bundle,
    Attr::App,
    Attr::Publisher,
    Attr::Country,
    Attr::Region,
    Attr::Metro,
    Attr::City,
    Attr::Zip,
    Attr::DeviceType,
    Attr::Make,
    Attr::Model,
    Attr::Os,
    Attr::Osv,
    Attr::Language,
    Attr::Carrier,
    Attr::ConnectionType,
    Attr::Yob,
    Attr::Gender,
    Attr::TagId,
    Attr::Pos,
];

/// The attribute of this name, or none where no attribute has it.
pub fn attr_named(name: &[u8]) -> Option<Attr>
    ensures { result ≡ attr_named name.now }
{
    ATTRIBUTES.iter().copied().find(|attr| attr.name() == name)
}

impl Attr {
    /// Its number, from 1 to 22.
    pub fn number(self) -> u8
        ensures { result ≡ number_of self }
    {
        self as u8
    }

    /// The attribute of this number, or none below 1 and above 22.
    pub fn with_number(n: u8) -> Option<Attr>
        ensures { result ≡ attr_numbered n }
    {
        ATTRIBUTES.iter().copied().find(|attr| attr.number() == n)
    }

    /// Its name in an expression.
    pub fn name(self) -> &'static [u8]
        ensures { result.now ≡ name_of self }
    {
        match self {
            Attr::Domain => b"domain",
            Attr::Site => b"site",
            Attr::Bundle => b"bundle",
            Attr::App => b"app",
            Attr::Publisher => b"publisher",
            Attr::Country => b"country",
            Attr::Region => b"region",
            Attr::Metro => b"metro",
            Attr::City => b"city",
            Attr::Zip => b"zip",
            Attr::DeviceType => b"devicetype",
            Attr::Make => b"make",
            Attr::Model => b"model",
            Attr::Os => b"os",
            Attr::Osv => b"osv",
            Attr::Language => b"language",
            Attr::Carrier => b"carrier",
            Attr::ConnectionType => b"connectiontype",
            Attr::Yob => b"yob",
            Attr::Gender => b"gender",
            Attr::TagId => b"tagid",
            Attr::Pos => b"pos",
        }
    }
}
