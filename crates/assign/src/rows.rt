//! What each part of a request gives to the attributes: the rows of the table, one after the other.
ghost use Rattle.std.specs.Prelude.{◌≡◌, ◌++◌, ◌∷◌, [], option_map, option_and_then, IfOk, OnOk};
ghost use Rattle.std.specs.Fmt.{signed_decimal};
ghost use Rattle.std.specs.List.{flat_map};
ghost use Rattle.target_expr.specs.declared.attr.Attr.TheVariants.{Publisher};
ghost use Rattle.assign.specs.Rows.{app_rows, device_rows, geo_rows, imp_rows, number_text, pair_of, publisher_of, site_rows, user_rows};

use rtb_num::{List, Txt, write_signed};
use rtb_types::{App, Banner, Device, Geo, Imp, Site, User};
use std::alloc::{AllocError, Global};
use target_expr::Attr;

/// Appends the rows of the site.
#[tactic(auto, unfolding(crate::specs::Rows::site_rows))]
pub(crate) fn push_site(
    pairs: &mut List<(Attr, Txt)>,
    site: Option<&Site>,
) -> Result<(), AllocError>
    ensures { OnOk result (pairs.new ≡ pairs.old ++ flat_map pair_of (site_rows (option_map (λ s. s.now) site.entry))) }
{
    if let Some(site) = site {
        push_text(pairs, Attr::Domain, site.domain.as_ref())?;
        push_text(pairs, Attr::Site, site.id.as_ref())?;
    }
    Ok(())
}

// Appends the row of a text, where it is present.
fn push_text(
    pairs: &mut List<(Attr, Txt)>,
    attr: Attr,
    text: Option<&Txt>,
) -> Result<(), AllocError>
    ensures { OnOk result (pairs.new ≡ pairs.old ++ pair_of (attr, option_map (λ t. t.now) text.entry)) }
{
    if let Some(text) = text {
        let value = text.copy()?;
        pairs.push((attr, value))?;
    }
    Ok(())
}

/// Appends the rows of the app.
#[tactic(auto, unfolding(crate::specs::Rows::app_rows))]
pub(crate) fn push_app(pairs: &mut List<(Attr, Txt)>, app: Option<&App>) -> Result<(), AllocError>
    ensures { OnOk result (pairs.new ≡ pairs.old ++ flat_map pair_of (app_rows (option_map (λ a. a.now) app.entry))) }
{
    if let Some(app) = app {
        push_text(pairs, Attr::Bundle, app.bundle.as_ref())?;
        push_text(pairs, Attr::App, app.id.as_ref())?;
    }
    Ok(())
}

/// Appends the row of the publisher.
pub(crate) fn push_publisher(
    pairs: &mut List<(Attr, Txt)>,
    site: Option<&Site>,
    app: Option<&App>,
) -> Result<(), AllocError>
    ensures { OnOk result (pairs.new ≡ pairs.old ++ pair_of (Publisher, publisher_of (option_map (λ s. s.now) site.entry) (option_map (λ a. a.now) app.entry))) }
{
    push_text(pairs, Attr::Publisher, publisher(site, app))
}

// The site's publisher, or else the app's.
#[tactic(auto, unfolding(crate::specs::Rows::publisher_of))]
fn publisher<'a>(site: Option<&'a Site>, app: Option<&'a App>) -> Option<&'a Txt>
    ensures { option_map (λ t. t.now) result ≡ publisher_of (option_map (λ s. s.now) site.entry) (option_map (λ a. a.now) app.entry) }
{
    match site_publisher(site) {
        Some(publisher) => Some(publisher),
        None => app_publisher(app),
    }
}

fn site_publisher(site: Option<&Site>) -> Option<&Txt>
    ensures { option_map (λ t. t.now) result ≡ option_and_then (λ s. s.publisher) (option_map (λ s. s.now) site.entry) }
{
    match site {
        Some(site) => site.publisher.as_ref(),
        None => None,
    }
}

fn app_publisher(app: Option<&App>) -> Option<&Txt>
    ensures { option_map (λ t. t.now) result ≡ option_and_then (λ a. a.publisher) (option_map (λ a. a.now) app.entry) }
{
    match app {
        Some(app) => app.publisher.as_ref(),
        None => None,
    }
}

/// Appends the rows of the device's place.
#[tactic(auto, unfolding(crate::specs::Rows::geo_rows))]
pub(crate) fn push_geo(pairs: &mut List<(Attr, Txt)>, geo: Option<&Geo>) -> Result<(), AllocError>
    ensures { OnOk result (pairs.new ≡ pairs.old ++ flat_map pair_of (geo_rows (option_map (λ g. g.now) geo.entry))) }
{
    if let Some(geo) = geo {
        push_text(pairs, Attr::Country, geo.country.as_ref())?;
        push_text(pairs, Attr::Region, geo.region.as_ref())?;
        push_text(pairs, Attr::Metro, geo.metro.as_ref())?;
        push_text(pairs, Attr::City, geo.city.as_ref())?;
        push_text(pairs, Attr::Zip, geo.zip.as_ref())?;
    }
    Ok(())
}

/// Appends the rows of the device.
#[tactic(auto, unfolding(crate::specs::Rows::device_rows))]
pub(crate) fn push_device(
    alloc: Global,
    pairs: &mut List<(Attr, Txt)>,
    device: Option<&Device>,
) -> Result<(), AllocError>
    ensures { OnOk result (pairs.new ≡ pairs.old ++ flat_map pair_of (device_rows (option_map (λ d. d.now) device.entry))) }
{
    if let Some(device) = device {
        push_number(alloc, pairs, Attr::DeviceType, device.devicetype)?;
        push_text(pairs, Attr::Make, device.device_make.as_ref())?;
        push_text(pairs, Attr::Model, device.device_model.as_ref())?;
        push_text(pairs, Attr::Os, device.os.as_ref())?;
        push_text(pairs, Attr::Osv, device.osv.as_ref())?;
        push_text(pairs, Attr::Language, device.language.as_ref())?;
        push_text(pairs, Attr::Carrier, device.carrier.as_ref())?;
        push_number(alloc, pairs, Attr::ConnectionType, device.connectiontype)?;
    }
    Ok(())
}

// Appends the row of a number, where it is present.
fn push_number(
    alloc: Global,
    pairs: &mut List<(Attr, Txt)>,
    attr: Attr,
    number: Option<i32>,
) -> Result<(), AllocError>
    ensures { OnOk result (pairs.new ≡ pairs.old ++ pair_of (attr, number_text number)) }
{
    if let Some(n) = number {
        let value = decimal_text(alloc, n)?;
        pairs.push((attr, value))?;
    }
    Ok(())
}

// The decimal text of a number.
fn decimal_text(alloc: Global, n: i32) -> Result<Txt, AllocError>
    ensures { IfOk result (λ t. t ≡ signed_decimal n) }
{
    let mut text = Txt::new(alloc);
    write_signed(n, &mut text)?;
    Ok(text)
}

/// Appends the rows of the user.
#[tactic(auto, unfolding(crate::specs::Rows::user_rows))]
pub(crate) fn push_user(
    alloc: Global,
    pairs: &mut List<(Attr, Txt)>,
    user: Option<&User>,
) -> Result<(), AllocError>
    ensures { OnOk result (pairs.new ≡ pairs.old ++ flat_map pair_of (user_rows (option_map (λ u. u.now) user.entry))) }
{
    if let Some(user) = user {
        push_number(alloc, pairs, Attr::Yob, user.yob)?;
        push_text(pairs, Attr::Gender, user.gender.as_ref())?;
    }
    Ok(())
}

/// Appends the rows of the impression.
#[tactic(auto, unfolding(crate::specs::Rows::imp_rows))]
pub(crate) fn push_imp(
    alloc: Global,
    pairs: &mut List<(Attr, Txt)>,
    imp: &Imp,
) -> Result<(), AllocError>
    ensures { OnOk result (pairs.new ≡ pairs.old ++ flat_map pair_of (imp_rows imp.now)) }
{
    push_text(pairs, Attr::TagId, imp.tagid.as_ref())?;
    push_number(alloc, pairs, Attr::Pos, pos_of(imp.banner.as_ref()))?;
    Ok(())
}

fn pos_of(banner: Option<&Banner>) -> Option<i32>
    ensures { result ≡ option_and_then (λ b. b.pos) (option_map (λ b. b.now) banner.entry) }
{
    match banner {
        Some(banner) => banner.pos,
        None => None,
    }
}
