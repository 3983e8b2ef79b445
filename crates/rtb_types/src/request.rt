//! The records of a bid request (OpenRTB 2.5, section 3.2).
ghost use Rattle.std.specs.Prelude.{◌≡◌};
ghost use Rattle.std.specs.List.{list_all};
ghost use Rattle.rtb_types.specs.Valid.{has_valid_deals, is_from as is_within, is_valid as is_valid_request, is_valid_deal};

use rtb_num::{List, Micros, Txt};

/// The most impressions that a request may have.
pub const MAX_IMPS: usize = 64;

/// A bid request (OpenRTB 2.5, section 3.2.1).
///
/// It is made by a reader, and every call that takes one wants it valid: see `is_valid`.
#[derive(Drop)]
pub struct BidRequest {
    /// Of 1 to 255 bytes.
    pub id: Txt,
    /// The auction type: 1 is first price, 2 is second price.
    pub at: u8,
    /// Whether it is a test, in which nothing is sold.
    pub test: bool,
    /// The seats that may buy; all where it is empty.
    pub wseat: List<Txt>,
    /// The seats that may not buy.
    pub bseat: List<Txt>,
    /// The currencies that bids may be in (ISO 4217); any where it is empty.
    pub cur: List<Txt>,
    /// The categories that are blocked, compared byte for byte.
    pub bcat: List<Txt>,
    /// The advertisers' domains that are blocked.
    pub badv: List<Txt>,
    pub site: Option<Site>,
    pub app: Option<App>,
    pub device: Option<Device>,
    pub user: Option<User>,
    /// What is for sale: 1 to 64 impressions, no two with one id.
    pub imps: List<Imp>,
}

/// The website that the impressions are on (section 3.2.13).
#[derive(Drop)]
pub struct Site {
    pub id: Option<Txt>,
    pub domain: Option<Txt>,
    /// The id of its publisher (section 3.2.15).
    pub publisher: Option<Txt>,
}

/// The app that the impressions are in (section 3.2.14).
#[derive(Drop)]
pub struct App {
    pub id: Option<Txt>,
    pub bundle: Option<Txt>,
    /// The id of its publisher (section 3.2.15).
    pub publisher: Option<Txt>,
}

/// The device of the user (section 3.2.18).
#[derive(Drop)]
pub struct Device {
    pub geo: Option<Geo>,
    /// By list 5.21.
    pub devicetype: Option<i32>,
    /// Its member `make`.
    pub device_make: Option<Txt>,
    /// Its member `model`.
    pub device_model: Option<Txt>,
    pub os: Option<Txt>,
    pub osv: Option<Txt>,
    pub language: Option<Txt>,
    pub carrier: Option<Txt>,
    /// By list 5.22.
    pub connectiontype: Option<i32>,
}

/// Where the device is (section 3.2.19).
#[derive(Drop)]
pub struct Geo {
    pub country: Option<Txt>,
    pub region: Option<Txt>,
    pub metro: Option<Txt>,
    pub city: Option<Txt>,
    pub zip: Option<Txt>,
}

/// Who sees the impressions (section 3.2.20).
#[derive(Drop)]
pub struct User {
    pub id: Option<Txt>,
    /// The year of birth.
    pub yob: Option<i32>,
    pub gender: Option<Txt>,
}

/// What is for sale (section 3.2.4).
#[derive(Drop)]
pub struct Imp {
    /// Of 1 to 255 bytes.
    pub id: Txt,
    pub tagid: Option<Txt>,
    /// Whether its markup must load over HTTPS.
    pub secure: bool,
    /// `bidfloor`: the least bid, in micro-dollars per thousand impressions, rounded up.
    pub floor: Micros,
    /// `bidfloorcur`: the currency of the floor (ISO 4217).
    pub currency: Txt,
    /// Present where a banner is asked for.
    pub banner: Option<Banner>,
    pub pmp: Pmp,
}

/// A banner that is asked for (section 3.2.6).
#[derive(Drop)]
pub struct Banner {
    /// The sizes that fit: `w` and `h`, where both are given, and then each of `format` with both.
    pub sizes: List<Size>,
    /// The creative attributes that are blocked (list 5.3).
    pub battr: List<i32>,
    /// Where it stands on the screen (list 5.4).
    pub pos: Option<i32>,
}

/// A width and a height in device independent pixels (section 3.2.10).
#[derive(Clone, Copy)]
pub struct Size {
    pub w: i32,
    pub h: i32,
}

/// The private marketplace of an impression (section 3.2.11).
#[derive(Drop)]
pub struct Pmp {
    /// Whether only the deals may buy.
    pub private_auction: bool,
    pub deals: List<Deal>,
}

/// A deal between a publisher and buyers (section 3.2.12).
#[derive(Drop)]
pub struct Deal {
    pub id: Txt,
    /// `bidfloor`: the least bid, in micro-dollars per thousand impressions, rounded up.
    pub floor: Micros,
    /// `bidfloorcur`: the currency of the floor (ISO 4217).
    pub currency: Txt,
    /// 1 is first price, 2 is second price, and 3 says that the floor is the price agreed.
    pub at: u8,
    /// The seats that may buy; all where it is empty.
    pub wseat: List<Txt>,
    /// The advertisers' domains that may buy; all where it is empty.
    pub wadomain: List<Txt>,
}

impl Deal {
    fn is_valid(&self) -> bool
        ensures { result ≡ is_valid_deal self.now }
    {
        is_from(1, 3, usize::from(self.at))
    }
}

// Whether n is from a to b.
fn is_from(a: usize, b: usize, n: usize) -> bool
    ensures { result ≡ is_within a b n }
{
    a <= n && n <= b
}

impl Imp {
    fn is_valid(&self) -> bool
        ensures { result ≡ has_valid_deals self.now }
    {
        self.pmp.deals.as_slice().iter().all(|deal| deal.is_valid())
    }
}

impl BidRequest {
    /// Whether it has 1 to 64 impressions, it is by first or second price, and each deal by first or
    /// second price or at an agreed one.
    pub fn is_valid(&self) -> bool
        ensures { result ≡ is_valid_request self.now }
    {
        is_from(1, 2, usize::from(self.at))
            && is_from(1, MAX_IMPS, self.imps.len())
            && are_valid(self.imps.as_slice())
    }
}

fn are_valid(imps: &[Imp]) -> bool
    ensures { result ≡ list_all has_valid_deals imps.now }
{
    imps.iter().all(|imp| imp.is_valid())
}
