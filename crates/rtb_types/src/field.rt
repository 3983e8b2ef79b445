//! The fields of a bid request that are read. The name of one that is known is known where it is asked for.
ghost use Rattle.std.specs.Prelude.{◌≡◌};
ghost use Rattle.rtb_types.specs.Paths.{app_member, app_name, banner_name, deal_name, device_name, geo_name, imp_name, member_name, pmp_name, request_name, site_member, site_name, size_name, user_name};

/// A listed field of a bid request (OpenRTB 2.5, section 3.2), with its places in arrays.
///
/// Places are counted from 0. `write` gives its path, as `imp[0].pmp.deals[1].bidfloor`.
#[derive(Clone, Copy)]
pub enum Field {
    /// A field of the request itself.
    Request(RequestField),
    /// An entry of a list of the request, as `wseat[2]` and `imp[0]`.
    RequestItem(RequestField, usize),
    Site(SiteField),
    App(AppField),
    Device(DeviceField),
    Geo(GeoField),
    User(UserField),
    /// A field of an impression.
    Imp(usize, ImpField),
    /// A field of an impression's banner.
    Banner(usize, BannerField),
    /// An entry of a list of an impression's banner, as `imp[0].banner.format[1]`.
    BannerItem(usize, BannerField, usize),
    /// A field of an entry of `format`, by the places of the impression and of the entry.
    Format(usize, usize, SizeField),
    /// A field of an impression's private marketplace.
    Pmp(usize, PmpField),
    /// A deal, by the places of its impression and of its own.
    Deal(usize, usize),
    /// A field of a deal.
    OfDeal(usize, usize, DealField),
    /// An entry of a list of a deal, as `imp[0].pmp.deals[1].wseat[2]`.
    DealItem(usize, usize, DealField, usize),
}

/// A field of the request (section 3.2.1).
#[derive(Clone, Copy)]
pub enum RequestField {
    Id,
    At,
    Test,
    Wseat,
    Bseat,
    Cur,
    Bcat,
    Badv,
    Site,
    App,
    Device,
    User,
    Imp,
}

/// A field of the site (section 3.2.13).
#[derive(Clone, Copy)]
pub enum SiteField {
    Id,
    Domain,
    Publisher,
    /// `publisher.id` (section 3.2.15).
    PublisherId,
}

/// A field of the app (section 3.2.14).
#[derive(Clone, Copy)]
pub enum AppField {
    Id,
    Bundle,
    Publisher,
    /// `publisher.id` (section 3.2.15).
    PublisherId,
}

/// A field of the device (section 3.2.18).
#[derive(Clone, Copy)]
pub enum DeviceField {
    Geo,
    Devicetype,
    Make,
    Model,
    Os,
    Osv,
    Language,
    Carrier,
    Connectiontype,
}

/// A field of the device's place (section 3.2.19).
#[derive(Clone, Copy)]
pub enum GeoField {
    Country,
    Region,
    Metro,
    City,
    Zip,
}

/// A field of the user (section 3.2.20).
#[derive(Clone, Copy)]
pub enum UserField {
    Id,
    Yob,
    Gender,
}

/// A field of an impression (section 3.2.4).
#[derive(Clone, Copy)]
pub enum ImpField {
    Id,
    Tagid,
    Secure,
    Bidfloor,
    Bidfloorcur,
    Banner,
    Pmp,
}

/// A field of a banner (section 3.2.6).
#[derive(Clone, Copy)]
pub enum BannerField {
    W,
    H,
    Format,
    Battr,
    Pos,
}

/// A field of a size (section 3.2.10).
#[derive(Clone, Copy)]
pub enum SizeField {
    W,
    H,
}

/// A field of a private marketplace (section 3.2.11).
#[derive(Clone, Copy)]
pub enum PmpField {
    PrivateAuction,
    Deals,
}

/// A field of a deal (section 3.2.12).
#[derive(Clone, Copy)]
pub enum DealField {
    Id,
    Bidfloor,
    Bidfloorcur,
    At,
    Wseat,
    Wadomain,
}

impl Field {
    /// The name that it has as a member of its object; that of the list for an entry of a list.
    #[inline(always)]
    pub fn member(self) -> &'static [u8]
        ensures { result.now ≡ member_name self }
    {
        match self {
            Field::Request(field) | Field::RequestItem(field, _) => field.name(),
            Field::Site(field) => field.member(),
            Field::App(field) => field.member(),
            Field::Device(field) => field.name(),
            Field::Geo(field) => field.name(),
            Field::User(field) => field.name(),
            Field::Imp(_, field) => field.name(),
            Field::Banner(_, field) | Field::BannerItem(_, field, _) => field.name(),
            Field::Format(_, _, field) => field.name(),
            Field::Pmp(_, field) => field.name(),
            Field::Deal(_, _) => PmpField::Deals.name(),
            Field::OfDeal(_, _, field) | Field::DealItem(_, _, field, _) => field.name(),
        }
    }
}

impl RequestField {
    /// Its name in the standard.
    #[inline(always)]
    pub fn name(self) -> &'static [u8]
        ensures { result.now ≡ request_name self }
    {
        match self {
            RequestField::Id => b"id",
            RequestField::At => b"at",
            RequestField::Test => b"test",
            RequestField::Wseat => b"wseat",
            RequestField::Bseat => b"bseat",
            RequestField::Cur => b"cur",
            RequestField::Bcat => b"bcat",
            RequestField::Badv => b"badv",
            RequestField::Site => b"site",
            RequestField::App => b"app",
            RequestField::Device => b"device",
            RequestField::User => b"user",
            RequestField::Imp => b"imp",
        }
    }
}

impl SiteField {
    /// Its name in the standard, from the site on.
    #[inline(always)]
    pub fn name(self) -> &'static [u8]
        ensures { result.now ≡ site_name self }
    {
        match self {
            SiteField::Id => b"id",
            SiteField::Domain => b"domain",
            SiteField::Publisher => b"publisher",
            SiteField::PublisherId => b"publisher.id",
        }
    }

    // Its name in the object that it is a member of.
    #[inline(always)]
    fn member(self) -> &'static [u8]
        ensures { result.now ≡ site_member self }
    {
        match self {
            SiteField::PublisherId => b"id",
            field => field.name(),
        }
    }
}

impl AppField {
    /// Its name in the standard, from the app on.
    #[inline(always)]
    pub fn name(self) -> &'static [u8]
        ensures { result.now ≡ app_name self }
    {
        match self {
            AppField::Id => b"id",
            AppField::Bundle => b"bundle",
            AppField::Publisher => b"publisher",
            AppField::PublisherId => b"publisher.id",
        }
    }

    // Its name in the object that it is a member of.
    #[inline(always)]
    fn member(self) -> &'static [u8]
        ensures { result.now ≡ app_member self }
    {
        match self {
            AppField::PublisherId => b"id",
            field => field.name(),
        }
    }
}

impl DeviceField {
    /// Its name in the standard.
    #[inline(always)]
    pub fn name(self) -> &'static [u8]
        ensures { result.now ≡ device_name self }
    {
        match self {
            DeviceField::Geo => b"geo",
            DeviceField::Devicetype => b"devicetype",
            DeviceField::Make => b"make",
            DeviceField::Model => b"model",
            DeviceField::Os => b"os",
            DeviceField::Osv => b"osv",
            DeviceField::Language => b"language",
            DeviceField::Carrier => b"carrier",
            DeviceField::Connectiontype => b"connectiontype",
        }
    }
}

impl GeoField {
    /// Its name in the standard.
    #[inline(always)]
    pub fn name(self) -> &'static [u8]
        ensures { result.now ≡ geo_name self }
    {
        match self {
            GeoField::Country => b"country",
            GeoField::Region => b"region",
            GeoField::Metro => b"metro",
            GeoField::City => b"city",
            GeoField::Zip => b"zip",
        }
    }
}

impl UserField {
    /// Its name in the standard.
    #[inline(always)]
    pub fn name(self) -> &'static [u8]
        ensures { result.now ≡ user_name self }
    {
        match self {
            UserField::Id => b"id",
            UserField::Yob => b"yob",
            UserField::Gender => b"gender",
        }
    }
}

impl ImpField {
    /// Its name in the standard.
    #[inline(always)]
    pub fn name(self) -> &'static [u8]
        ensures { result.now ≡ imp_name self }
    {
        match self {
            ImpField::Id => b"id",
            ImpField::Tagid => b"tagid",
            ImpField::Secure => b"secure",
            ImpField::Bidfloor => b"bidfloor",
            ImpField::Bidfloorcur => b"bidfloorcur",
            ImpField::Banner => b"banner",
            ImpField::Pmp => b"pmp",
        }
    }
}

impl BannerField {
    /// Its name in the standard.
    #[inline(always)]
    pub fn name(self) -> &'static [u8]
        ensures { result.now ≡ banner_name self }
    {
        match self {
            BannerField::W => b"w",
            BannerField::H => b"h",
            BannerField::Format => b"format",
            BannerField::Battr => b"battr",
            BannerField::Pos => b"pos",
        }
    }
}

impl SizeField {
    /// Its name in the standard.
    #[inline(always)]
    pub fn name(self) -> &'static [u8]
        ensures { result.now ≡ size_name self }
    {
        match self {
            SizeField::W => b"w",
            SizeField::H => b"h",
        }
    }
}

impl PmpField {
    /// Its name in the standard.
    #[inline(always)]
    pub fn name(self) -> &'static [u8]
        ensures { result.now ≡ pmp_name self }
    {
        match self {
            PmpField::PrivateAuction => b"private_auction",
            PmpField::Deals => b"deals",
        }
    }
}

impl DealField {
    /// Its name in the standard.
    #[inline(always)]
    pub fn name(self) -> &'static [u8]
        ensures { result.now ≡ deal_name self }
    {
        match self {
            DealField::Id => b"id",
            DealField::Bidfloor => b"bidfloor",
            DealField::Bidfloorcur => b"bidfloorcur",
            DealField::At => b"at",
            DealField::Wseat => b"wseat",
            DealField::Wadomain => b"wadomain",
        }
    }
}
