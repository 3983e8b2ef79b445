//! The bid object of a sale (OpenRTB 2.5, section 4.2.3).
ghost use Rattle.std.specs.Prelude.{◌≡◌, ◌∷◌, [], ◌++◌, codes, decimal, map, slice_get, IsTrue, IfOk, OnOk};
ghost use Rattle.std.specs.Fmt.{signed_decimal};
ghost use Rattle.std.specs.Option.{option_copied, option_map_or};
ghost use Rattle.campaign.specs.Kept.{size_of};
ghost use Rattle.json_out.specs.Inside.{put_member, put_members};
ghost use Rattle.json_out.specs.Strings.{string_text};
ghost use Rattle.json_out.specs.Writer.{put_value, takes_name, takes_value};
ghost use Rattle.rtb_macros.specs.Macros.{filled_in};
ghost use Rattle.rtb_num.specs.Amounts.{micros_text};
ghost use Rattle.rtb_response.specs.Response.{ad_members, bid_text, further_members, imp_id, macro_values as values_of, notice_members, optional_array, optional_text, sale_members, seat_of, sides_members, signed, text_member};

use address_keys::Keys;
use campaign::Facts;
use json_out::Writer;
use plain_exchange::Sold;
use rtb_macros::{MacroValues, may_have_macros, substitute};
use rtb_num::{Micros, Txt, pair_with, write_decimal, write_micros};
use rtb_types::BidRequest;
use std::alloc::{AllocError, Global};

/// Writes the bid object of the sale.
pub(crate) fn put_bid(
    alloc: Global,
    writer: &mut Writer,
    request: &BidRequest,
    sale: &Sold,
    public: Option<&Txt>,
    keys: &Keys,
) -> Result<(), AllocError>
    requires { IsTrue (takes_value writer.old) }
    ensures { OnOk result (writer.new ≡ put_value writer.old (bid_text (option_copied public.entry) keys.now request.now sale.now)) }
{
    let facts = &sale.record.record().facts;
    writer.obj()?;
    put_sale(writer, request, sale)?;
    put_text_if_some(writer, b"adid", facts.adid())?;
    put_notices(alloc, writer, sale.sale, public, keys)?;
    put_ad(alloc, writer, request, sale)?;
    put_further(writer, facts, sale.deal.as_ref())?;
    writer.end()?;
    Ok(())
}

// Writes what was sold, and the price in US dollars.
fn put_sale(writer: &mut Writer, request: &BidRequest, sale: &Sold) -> Result<(), AllocError>
    requires { IsTrue (takes_name writer.old) }
    ensures ok { OnOk result (writer.new ≡ put_members writer.old (sale_members request.now sale.now)) }
    ensures next { OnOk result (IsTrue (takes_name writer.new)) }
{
    writer.put_digits(b"id", sale.sale)?;
    writer.put_text(b"impid", imp_id(request, sale))?;
    writer.put_micros(b"price", sale.price)?;
    Ok(())
}

// The id of the impression that was sold.
fn imp_id<'a>(request: &'a BidRequest, sale: &Sold) -> &'a [u8]
    ensures { result.now ≡ imp_id request.now sale.now }
{
    match request.imps.get(sale.imp as usize) {
        Some(imp) => imp.id.as_bytes(),
        None => b"",
    }
}

// Writes a string, where there is one.
fn put_text_if_some(writer: &mut Writer, name: &[u8], text: Option<&Txt>) -> Result<(), AllocError>
    requires { IsTrue (takes_name writer.old) }
    ensures ok { OnOk result (writer.new ≡ put_members writer.old (optional_text name.now (option_copied text.entry))) }
    ensures next { OnOk result (IsTrue (takes_name writer.new)) }
{
    match text {
        Some(text) => writer.put_text(name, text.as_bytes()),
        None => Ok(()),
    }
}

// Writes the addresses of the notices, where it is known with what they begin.
fn put_notices(
    alloc: Global,
    writer: &mut Writer,
    sale: u64,
    public: Option<&Txt>,
    keys: &Keys,
) -> Result<(), AllocError>
    requires { IsTrue (takes_name writer.old) }
    ensures ok { OnOk result (writer.new ≡ put_members writer.old (notice_members (option_copied public.entry) keys.now sale)) }
    ensures next { OnOk result (IsTrue (takes_name writer.new)) }
{
    match public {
        Some(public) => put_addresses(alloc, writer, sale, public.as_bytes(), keys),
        None => Ok(()),
    }
}

fn put_addresses(
    alloc: Global,
    writer: &mut Writer,
    sale: u64,
    public: &[u8],
    keys: &Keys,
) -> Result<(), AllocError>
    requires { IsTrue (takes_name writer.old) }
    ensures ok { OnOk result (writer.new ≡ put_members writer.old (text_member (codes "burl") (public.now ++ signed keys.now (codes "/bill/" ++ decimal sale)) ∷ text_member (codes "lurl") (public.now ++ signed keys.now (codes "/lose/" ++ decimal sale)) ∷ [])) }
    ensures next { OnOk result (IsTrue (takes_name writer.new)) }
{
    put_address(alloc, writer, b"burl", public, b"/bill/", sale, keys)?;
    put_address(alloc, writer, b"lurl", public, b"/lose/", sale, keys)?;
    Ok(())
}

// Writes the address whose path ends in the number, and in the path's token where addresses are signed.
fn put_address(
    alloc: Global,
    writer: &mut Writer,
    name: &[u8],
    public: &[u8],
    path: &[u8],
    n: u64,
    keys: &Keys,
) -> Result<(), AllocError>
    requires { IsTrue (takes_name writer.old) }
    ensures ok { OnOk result (writer.new ≡ put_member writer.old (text_member name.now (public.now ++ signed keys.now (path.now ++ decimal n)))) }
    ensures next { OnOk result (IsTrue (takes_name writer.new)) }
{
    match keys.token(path, n) {
        Some(token) => put_signed(alloc, writer, name, public, path, n, &token),
        None => writer.put_numbered(name, public, path, n),
    }
}

fn put_signed(
    alloc: Global,
    writer: &mut Writer,
    name: &[u8],
    public: &[u8],
    path: &[u8],
    n: u64,
    token: &[u8],
) -> Result<(), AllocError>
    requires { IsTrue (takes_name writer.old) }
    ensures ok { OnOk result (writer.new ≡ put_member writer.old (text_member name.now (public.now ++ ((path.now ++ decimal n) ++ 47 ∷ token.now)))) }
    ensures next { OnOk result (IsTrue (takes_name writer.new)) }
{
    let address = signed_address(alloc, public, path, n, token)?;
    let done = writer.put_text(name, address.as_bytes());
    drop(address);
    done
}

fn signed_address(
    alloc: Global,
    public: &[u8],
    path: &[u8],
    n: u64,
    token: &[u8],
) -> Result<Txt, AllocError>
    ensures { IfOk result (λ t. t ≡ public.now ++ ((path.now ++ decimal n) ++ 47 ∷ token.now)) }
{
    let mut text = Txt::new(alloc);
    text.extend(public)?;
    text.extend(path)?;
    write_decimal(n, &mut text)?;
    text.push(b'/')?;
    text.extend(token)?;
    Ok(text)
}

// Writes what is shown, and of whom.
fn put_ad(
    alloc: Global,
    writer: &mut Writer,
    request: &BidRequest,
    sale: &Sold,
) -> Result<(), AllocError>
    requires { IsTrue (takes_name writer.old) }
    ensures ok { OnOk result (writer.new ≡ put_members writer.old (ad_members request.now sale.now)) }
    ensures next { OnOk result (IsTrue (takes_name writer.new)) }
{
    let facts = &sale.record.record().facts;
    put_markup(alloc, writer, request, sale)?;
    writer.put_one(b"adomain", facts.adomain().as_bytes())?;
    writer.put_digits(b"cid", u64::from(sale.campaign))?;
    writer.put_text(b"crid", facts.crid().as_bytes())?;
    Ok(())
}

fn put_markup(
    alloc: Global,
    writer: &mut Writer,
    request: &BidRequest,
    sale: &Sold,
) -> Result<(), AllocError>
    requires { IsTrue (takes_name writer.old) }
    ensures ok { OnOk result (writer.new ≡ put_member writer.old (text_member (codes "adm") (filled_in (values_of request.now sale.now) sale.now.record.facts.adm))) }
    ensures next { OnOk result (IsTrue (takes_name writer.new)) }
{
    let markup = sale.record.record().facts.adm().as_bytes();
    if may_have_macros(markup) {
        return put_filled(alloc, writer, request, sale);
    }
    writer.put_text(b"adm", markup)
}

fn put_filled(
    alloc: Global,
    writer: &mut Writer,
    request: &BidRequest,
    sale: &Sold,
) -> Result<(), AllocError>
    requires { IsTrue (takes_name writer.old) }
    ensures ok { OnOk result (writer.new ≡ put_member writer.old (text_member (codes "adm") (filled_in (values_of request.now sale.now) sale.now.record.facts.adm))) }
    ensures next { OnOk result (IsTrue (takes_name writer.new)) }
{
    let markup = markup(alloc, request, sale)?;
    let done = writer.put_text(b"adm", markup.as_bytes());
    drop(markup);
    done
}

// The markup with the macros' values.
fn markup(alloc: Global, request: &BidRequest, sale: &Sold) -> Result<Txt, AllocError>
    ensures { IfOk result (λ t. t ≡ filled_in (values_of request.now sale.now) sale.now.record.facts.adm) }
{
    let values = macro_values(alloc, request, sale)?;
    let text = substitute(alloc, sale.record.record().facts.adm().as_bytes(), &values);
    drop(values);
    text
}

fn macro_values(alloc: Global, request: &BidRequest, sale: &Sold) -> Result<MacroValues, AllocError>
    ensures { IfOk result (λ v. v ≡ values_of request.now sale.now) }
{
    let facts = &sale.record.record().facts;
    let auction = request.id.copy()?;
    let one = pair_with(auction, digits(alloc, sale.sale))?;
    let two = pair_with(one, Txt::from_slice(alloc, imp_id(request, sale)))?;
    let three = pair_with(two, facts.seat().copy())?;
    let four = pair_with(three, copy_if_some(facts.adid()))?;
    let all = pair_with(four, price(alloc, sale.price))?;
    let (((((auction, bid), imp), seat), ad), price) = all;
    Ok(MacroValues {
        auction,
        bid,
        imp,
        seat,
        ad,
        price,
    })
}

fn digits(alloc: Global, n: u64) -> Result<Txt, AllocError>
    ensures { IfOk result (λ t. t ≡ decimal n) }
{
    let mut text = Txt::new(alloc);
    write_decimal(n, &mut text)?;
    Ok(text)
}

fn price(alloc: Global, price: Micros) -> Result<Txt, AllocError>
    ensures { IfOk result (λ t. t ≡ micros_text price) }
{
    let mut text = Txt::new(alloc);
    write_micros(price, &mut text)?;
    Ok(text)
}

fn copy_if_some(text: Option<&Txt>) -> Result<Option<Txt>, AllocError>
    ensures { IfOk result (λ t. t ≡ option_copied text.entry) }
{
    match text {
        Some(text) => {
            let copy = text.copy()?;
            Ok(Some(copy))
        }
        None => Ok(None),
    }
}

// Writes what the creative is like, and the deal.
fn put_further(writer: &mut Writer, facts: &Facts, deal: Option<&Txt>) -> Result<(), AllocError>
    requires { IsTrue (takes_name writer.old) }
    ensures ok { OnOk result (writer.new ≡ put_members writer.old (further_members facts.now (option_copied deal.entry))) }
    ensures next { OnOk result (IsTrue (takes_name writer.new)) }
{
    put_texts_if_any(writer, b"cat", facts.cat().as_slice())?;
    put_numbers_if_any(writer, b"attr", facts.attr().as_slice())?;
    put_text_if_some(writer, b"dealid", deal)?;
    put_sides(writer, facts.size())?;
    Ok(())
}

fn put_texts_if_any(writer: &mut Writer, name: &[u8], texts: &[Txt]) -> Result<(), AllocError>
    requires { IsTrue (takes_name writer.old) }
    ensures ok { OnOk result (writer.new ≡ put_members writer.old (optional_array name.now (map string_text texts.now))) }
    ensures next { OnOk result (IsTrue (takes_name writer.new)) }
{
    if texts.is_empty() {
        return Ok(());
    }
    writer.put_texts(name, texts)
}

fn put_numbers_if_any(writer: &mut Writer, name: &[u8], numbers: &[i32]) -> Result<(), AllocError>
    requires { IsTrue (takes_name writer.old) }
    ensures ok { OnOk result (writer.new ≡ put_members writer.old (optional_array name.now (map signed_decimal numbers.now))) }
    ensures next { OnOk result (IsTrue (takes_name writer.new)) }
{
    if numbers.is_empty() {
        return Ok(());
    }
    writer.put_signeds(name, numbers)
}

// Writes the width and the height of the creative, where it has them.
fn put_sides(writer: &mut Writer, size: Option<(i32, i32)>) -> Result<(), AllocError>
    requires { IsTrue (takes_name writer.old) }
    ensures ok { OnOk result (writer.new ≡ put_members writer.old (option_map_or sides_members size [])) }
    ensures next { OnOk result (IsTrue (takes_name writer.new)) }
{
    match size {
        Some((width, height)) => {
            writer.put_signed(b"w", width)?;
            writer.put_signed(b"h", height)
        }
        None => Ok(()),
    }
}
