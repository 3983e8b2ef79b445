//! Calls of `rtb_read`: bid requests and their faults.
use bumpalo::Bump;
use case_lines::{done, put_comma};
use exact_json::{Doc, read};
use rtb_num::{List, Micros, Txt, write_decimal, write_signed};
use rtb_read::read_request;
use rtb_types::{App, Banner, BidRequest, Deal, Device, Geo, Imp, Site, User};
use std::alloc::{AllocError, Global};

/// Answers a call of this area, or tells that it is none.
///
/// - `request | TEXT`: the fields of the request that are there, as `id=b1 at=2 imp{id=1 ..}`, with
///   amounts in micro-dollars.
/// - `why_no_request | TEXT`: what is wrong with it, in words.
pub fn answer(alloc: Global, call: &[u8], args: &[Txt], out: &mut Txt) -> Result<bool, AllocError> {
    match args {
        [text] if call == b"request".as_slice() => {
            done(tell(alloc, text.as_bytes(), false, out))
        }
        [text] if call == b"why_no_request".as_slice() => {
            done(tell(alloc, text.as_bytes(), true, out))
        }
        _ => Ok(false),
    }
}

fn tell(alloc: Global, text: &[u8], is_why: bool, out: &mut Txt) -> Result<(), AllocError> {
    let arena = Bump::new(alloc);
    match read(alloc, &arena, text) {
        Ok(doc) if is_why => put_why(alloc, &doc, out),
        Ok(doc) => show(alloc, &doc, out),
        Err(fault) => out.extend(format!(in alloc; "{fault}")?.as_bytes()),
    }
}

// Why the text is no request, in words.
fn put_why(alloc: Global, doc: &Doc<'_>, out: &mut Txt) -> Result<(), AllocError> {
    match read_request(alloc, doc).err() {
        None => out.extend(b"it is one"),
        Some(fault) => out.extend(format!(in alloc; "{fault}")?.as_bytes()),
    }
}

// ---- the fields of a request

fn show(alloc: Global, doc: &Doc<'_>, out: &mut Txt) -> Result<(), AllocError> {
    match read_request(alloc, doc).ok() {
        Some(request) => {
            let written = put_request(&request, out);
            drop(request);
            written
        }
        None => out.extend(b"refused"),
    }
}

fn put_request(request: &BidRequest, out: &mut Txt) -> Result<(), AllocError> {
    out.extend_all(&[b"id=", request.id.as_bytes()])?;
    put_amount(b" at=", u64::from(request.at), out)?;
    put_flag(b" test", request.test, out)?;
    put_texts(b" wseat=", &request.wseat, out)?;
    put_texts(b" bseat=", &request.bseat, out)?;
    put_texts(b" cur=", &request.cur, out)?;
    put_texts(b" bcat=", &request.bcat, out)?;
    put_texts(b" badv=", &request.badv, out)?;
    put_site(&request.site, out)?;
    put_app(&request.app, out)?;
    put_device(&request.device, out)?;
    put_user(&request.user, out)?;
    for imp in request.imps.as_slice() {
        put_imp(imp, out)?;
    }
    Ok(())
}

fn put_amount(word: &[u8], n: u64, out: &mut Txt) -> Result<(), AllocError> {
    out.extend(word)?;
    write_decimal(n, out)
}

fn put_flag(word: &[u8], flag: bool, out: &mut Txt) -> Result<(), AllocError> {
    if flag {
        return out.extend(word);
    }
    Ok(())
}

// A list that has a text, each behind the first behind a comma.
fn put_texts(word: &[u8], texts: &List<Txt>, out: &mut Txt) -> Result<(), AllocError> {
    if texts.is_empty() {
        return Ok(());
    }
    put_listed(word, texts, out)
}

/// Appends the texts behind a word, each behind the first behind a comma.
pub fn put_listed(word: &[u8], texts: &List<Txt>, out: &mut Txt) -> Result<(), AllocError> {
    out.extend(word)?;
    for (i, text) in texts.as_slice().iter().enumerate() {
        put_comma(i, out)?;
        out.extend(text.as_bytes())?;
    }
    Ok(())
}

fn put_site(site: &Option<Site>, out: &mut Txt) -> Result<(), AllocError> {
    let Some(site) = site else {
        return Ok(());
    };
    out.extend(b" site{")?;
    put_text(b" id=", &site.id, out)?;
    put_text(b" domain=", &site.domain, out)?;
    put_text(b" publisher=", &site.publisher, out)?;
    out.extend(b" }")
}

fn put_text(word: &[u8], text: &Option<Txt>, out: &mut Txt) -> Result<(), AllocError> {
    match text {
        Some(text) => out.extend_all(&[word, text.as_bytes()]),
        None => Ok(()),
    }
}

fn put_app(app: &Option<App>, out: &mut Txt) -> Result<(), AllocError> {
    let Some(app) = app else {
        return Ok(());
    };
    out.extend(b" app{")?;
    put_text(b" id=", &app.id, out)?;
    put_text(b" bundle=", &app.bundle, out)?;
    put_text(b" publisher=", &app.publisher, out)?;
    out.extend(b" }")
}

fn put_device(device: &Option<Device>, out: &mut Txt) -> Result<(), AllocError> {
    let Some(device) = device else {
        return Ok(());
    };
    out.extend(b" device{")?;
    put_geo(&device.geo, out)?;
    put_integer(b" devicetype=", device.devicetype, out)?;
    put_text(b" make=", &device.device_make, out)?;
    put_text(b" model=", &device.device_model, out)?;
    put_text(b" os=", &device.os, out)?;
    put_text(b" osv=", &device.osv, out)?;
    put_text(b" language=", &device.language, out)?;
    put_text(b" carrier=", &device.carrier, out)?;
    put_integer(b" connectiontype=", device.connectiontype, out)?;
    out.extend(b" }")
}

fn put_geo(geo: &Option<Geo>, out: &mut Txt) -> Result<(), AllocError> {
    let Some(geo) = geo else {
        return Ok(());
    };
    out.extend(b" geo{")?;
    put_text(b" country=", &geo.country, out)?;
    put_text(b" region=", &geo.region, out)?;
    put_text(b" metro=", &geo.metro, out)?;
    put_text(b" city=", &geo.city, out)?;
    put_text(b" zip=", &geo.zip, out)?;
    out.extend(b" }")
}

fn put_integer(word: &[u8], n: Option<i32>, out: &mut Txt) -> Result<(), AllocError> {
    match n {
        Some(n) => put_signed(word, n, out),
        None => Ok(()),
    }
}

/// Appends a number behind a word.
pub fn put_signed(word: &[u8], n: i32, out: &mut Txt) -> Result<(), AllocError> {
    out.extend(word)?;
    write_signed(n, out)
}

fn put_user(user: &Option<User>, out: &mut Txt) -> Result<(), AllocError> {
    let Some(user) = user else {
        return Ok(());
    };
    out.extend(b" user{")?;
    put_text(b" id=", &user.id, out)?;
    put_integer(b" yob=", user.yob, out)?;
    put_text(b" gender=", &user.gender, out)?;
    out.extend(b" }")
}

fn put_imp(imp: &Imp, out: &mut Txt) -> Result<(), AllocError> {
    out.extend_all(&[b" imp{ id=", imp.id.as_bytes()])?;
    put_text(b" tagid=", &imp.tagid, out)?;
    put_flag(b" secure", imp.secure, out)?;
    put_price(imp.floor, &imp.currency, out)?;
    put_banner(&imp.banner, out)?;
    put_flag(b" private", imp.pmp.private_auction, out)?;
    for deal in imp.pmp.deals.as_slice() {
        put_deal(deal, out)?;
    }
    out.extend(b" }")
}

// A floor and its currency.
fn put_price(floor: Micros, currency: &Txt, out: &mut Txt) -> Result<(), AllocError> {
    put_amount(b" floor=", floor.get(), out)?;
    out.extend_all(&[b" ", currency.as_bytes()])
}

fn put_banner(banner: &Option<Banner>, out: &mut Txt) -> Result<(), AllocError> {
    let Some(banner) = banner else {
        return Ok(());
    };
    out.extend(b" banner{")?;
    for size in banner.sizes.as_slice() {
        put_signed(b" ", size.w, out)?;
        put_signed(b"x", size.h, out)?;
    }
    put_numbers(b" battr=", banner.battr.as_slice(), out)?;
    put_integer(b" pos=", banner.pos, out)?;
    out.extend(b" }")
}

/// Appends each of the numbers behind the word.
pub fn put_numbers(word: &[u8], numbers: &[i32], out: &mut Txt) -> Result<(), AllocError> {
    for n in numbers {
        put_signed(word, *n, out)?;
    }
    Ok(())
}

fn put_deal(deal: &Deal, out: &mut Txt) -> Result<(), AllocError> {
    out.extend_all(&[b" deal{ id=", deal.id.as_bytes()])?;
    put_amount(b" at=", u64::from(deal.at), out)?;
    put_price(deal.floor, &deal.currency, out)?;
    put_texts(b" wseat=", &deal.wseat, out)?;
    put_texts(b" wadomain=", &deal.wadomain, out)?;
    out.extend(b" }")
}
