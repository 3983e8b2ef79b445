//! The bid request of OpenRTB 2.5 (section 3.2): its records, and its fields with their paths.
//!
//! `specs/Paths.antt` says how the path of a field is written, and `specs/Valid.antt` which requests
//! are valid.
#![tactic(auto)]

mod field;
mod path;
mod request;

pub use field::{
    AppField, BannerField, DealField, DeviceField, Field, GeoField, ImpField, PmpField,
    RequestField, SiteField, SizeField, UserField,
};
pub use request::{
    App, Banner, BidRequest, Deal, Device, Geo, Imp, MAX_IMPS, Pmp, Site, Size, User,
};
