//! What the bodies are made of: a number between two texts, and a price behind one.
ghost use Rattle.std.specs.Prelude.{◌≡◌, ◌++◌, List, OnOk};
ghost use Rattle.loadgen.specs.Texts.{numbered, priced};

use rtb_num::{Micros, Txt, write_decimal, write_micros};
use std::alloc::AllocError;

#[tactic(auto, unfolding(crate::specs::Texts::numbered))]
pub(crate) fn put_number(
    before: &[u8],
    number: u32,
    after: &[u8],
    body: &mut Txt,
) -> Result<(), AllocError>
    ensures { OnOk result (body.new ≡ body.old ++ numbered before.now number after.now) }
{
    body.extend(before)?;
    write_decimal(u64::from(number), body)?;
    body.extend(after)
}

#[tactic(auto, unfolding(crate::specs::Texts::priced))]
pub(crate) fn put_price(before: &[u8], price: Micros, body: &mut Txt) -> Result<(), AllocError>
    ensures { OnOk result (body.new ≡ body.old ++ priced before.now price) }
{
    body.extend(before)?;
    write_micros(price, body)
}
