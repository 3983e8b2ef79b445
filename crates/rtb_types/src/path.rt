//! The path of a field of a bid request, as it is written in a refusal.
ghost use Rattle.std.specs.Prelude.{◌≡◌, ◌++◌, ◌∷◌, ℕ, List, OnOk, OnErr, codes};
ghost use Rattle.rtb_num.specs.Paths.{place as place_text};
ghost use Rattle.rtb_types.specs.Paths.{banner_path, deal_path, imp_path, path, pmp_path};

use crate::field::Field;
use rtb_num::{Txt, put_item, put_member, put_name, put_place};
use std::alloc::AllocError;

impl Field {
    /// Appends its path, as `imp[0].pmp.deals[1].bidfloor`. Where memory is refused the text stays as
    /// it was.
    pub fn write(&self, out: &mut Txt) -> Result<(), AllocError>
        ensures ok { OnOk result (out.new ≡ out.old ++ path self.now) }
        ensures err { OnErr result (out.new ≡ out.old) }
    {
        let before = out.len();
        let written = put_path(self, out);
        out.settle(before, written)
    }
}

// Appends the path of the field, or a front of it.
fn put_path(field: &Field, out: &mut Txt) -> Result<(), AllocError>
    ensures ok { OnOk result (out.new ≡ out.old ++ path field.now) }
    ensures front { (more : List ℕ) × (out.new ≡ out.old ++ more) }
{
    match *field {
        Field::Request(name) => put_name(name.name(), out),
        Field::RequestItem(name, place) => put_item(name.name(), place, out),
        Field::Site(name) => put_inside(b"site.", name.name(), out),
        Field::App(name) => put_inside(b"app.", name.name(), out),
        Field::Device(name) => put_inside(b"device.", name.name(), out),
        Field::Geo(name) => put_inside(b"device.geo.", name.name(), out),
        Field::User(name) => put_inside(b"user.", name.name(), out),
        Field::Imp(imp, name) => put_of_imp(imp, name.name(), out),
        Field::Banner(imp, name) => put_of_banner(imp, name.name(), out),
        Field::BannerItem(imp, name, place) => put_banner_item(imp, name.name(), place, out),
        Field::Format(imp, place, name) => put_of_format(imp, place, name.name(), out),
        Field::Pmp(imp, name) => put_of_pmp(imp, name.name(), out),
        Field::Deal(imp, deal) => put_deal(imp, deal, out),
        Field::OfDeal(imp, deal, name) => put_of_deal(imp, deal, name.name(), out),
        Field::DealItem(imp, deal, name, place) => {
            put_deal_item(imp, deal, name.name(), place, out)
        }
    }
}

// Appends a name behind a prefix.
fn put_inside(prefix: &[u8], name: &[u8], out: &mut Txt) -> Result<(), AllocError>
    ensures ok { OnOk result (out.new ≡ out.old ++ (prefix.now ++ name.now)) }
    ensures front { (more : List ℕ) × (out.new ≡ out.old ++ more) }
{
    put_name(prefix, out)?;
    put_name(name, out)?;
    Ok(())
}

// Appends a member of an impression.
fn put_of_imp(imp: usize, name: &[u8], out: &mut Txt) -> Result<(), AllocError>
    ensures ok { OnOk result (out.new ≡ out.old ++ (imp_path imp ++ codes "." ++ name.now)) }
    ensures front { (more : List ℕ) × (out.new ≡ out.old ++ more) }
{
    put_imp(imp, out)?;
    put_member(name, out)
}

fn put_imp(imp: usize, out: &mut Txt) -> Result<(), AllocError>
    ensures ok { OnOk result (out.new ≡ out.old ++ imp_path imp) }
    ensures front { (more : List ℕ) × (out.new ≡ out.old ++ more) }
{
    put_name(b"imp", out)?;
    put_place(imp, out)?;
    Ok(())
}

fn put_of_banner(imp: usize, name: &[u8], out: &mut Txt) -> Result<(), AllocError>
    ensures ok { OnOk result (out.new ≡ out.old ++ (banner_path imp ++ codes "." ++ name.now)) }
    ensures front { (more : List ℕ) × (out.new ≡ out.old ++ more) }
{
    put_banner(imp, out)?;
    put_member(name, out)
}

fn put_banner_item(imp: usize, name: &[u8], place: usize, out: &mut Txt) -> Result<(), AllocError>
    ensures ok { OnOk result (out.new ≡ out.old ++ (banner_path imp ++ codes "." ++ name.now ++ place_text place)) }
    ensures front { (more : List ℕ) × (out.new ≡ out.old ++ more) }
{
    put_of_banner(imp, name, out)?;
    put_place(place, out)
}

fn put_of_format(imp: usize, place: usize, name: &[u8], out: &mut Txt) -> Result<(), AllocError>
    ensures ok { OnOk result (out.new ≡ out.old ++ (banner_path imp ++ codes ".format" ++ place_text place ++ codes "." ++ name.now)) }
    ensures front { (more : List ℕ) × (out.new ≡ out.old ++ more) }
{
    put_banner(imp, out)?;
    put_item(b".format", place, out)?;
    put_member(name, out)
}

fn put_banner(imp: usize, out: &mut Txt) -> Result<(), AllocError>
    ensures ok { OnOk result (out.new ≡ out.old ++ banner_path imp) }
    ensures front { (more : List ℕ) × (out.new ≡ out.old ++ more) }
{
    put_imp(imp, out)?;
    put_name(b".banner", out)
}

fn put_of_pmp(imp: usize, name: &[u8], out: &mut Txt) -> Result<(), AllocError>
    ensures ok { OnOk result (out.new ≡ out.old ++ (pmp_path imp ++ codes "." ++ name.now)) }
    ensures front { (more : List ℕ) × (out.new ≡ out.old ++ more) }
{
    put_pmp(imp, out)?;
    put_member(name, out)
}

fn put_pmp(imp: usize, out: &mut Txt) -> Result<(), AllocError>
    ensures ok { OnOk result (out.new ≡ out.old ++ pmp_path imp) }
    ensures front { (more : List ℕ) × (out.new ≡ out.old ++ more) }
{
    put_imp(imp, out)?;
    put_name(b".pmp", out)
}

fn put_of_deal(imp: usize, deal: usize, name: &[u8], out: &mut Txt) -> Result<(), AllocError>
    ensures ok { OnOk result (out.new ≡ out.old ++ (deal_path imp deal ++ codes "." ++ name.now)) }
    ensures front { (more : List ℕ) × (out.new ≡ out.old ++ more) }
{
    put_deal(imp, deal, out)?;
    put_member(name, out)
}

fn put_deal_item(
    imp: usize,
    deal: usize,
    name: &[u8],
    place: usize,
    out: &mut Txt,
) -> Result<(), AllocError>
    ensures ok { OnOk result (out.new ≡ out.old ++ (deal_path imp deal ++ codes "." ++ name.now ++ place_text place)) }
    ensures front { (more : List ℕ) × (out.new ≡ out.old ++ more) }
{
    put_of_deal(imp, deal, name, out)?;
    put_place(place, out)
}

fn put_deal(imp: usize, deal: usize, out: &mut Txt) -> Result<(), AllocError>
    ensures ok { OnOk result (out.new ≡ out.old ++ deal_path imp deal) }
    ensures front { (more : List ℕ) × (out.new ≡ out.old ++ more) }
{
    put_pmp(imp, out)?;
    put_item(b".deals", deal, out)
}
