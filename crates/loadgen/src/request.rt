//! The body of a bid request.
ghost use Rattle.std.specs.Prelude.{◌≡◌, ◌<◌, ◌+◌, ◌%◌, ◌==◌, ◌++◌, List, OnOk, IfOk, IfSome, Option, codes, if◌then◌else◌, ℕ};
ghost use Rattle.loadgen.specs.Pieces.{AreShort, country_text, floor_text};
ghost use Rattle.loadgen.specs.Texts.{numbered, request_text, system_of, told_system};

use rtb_num::{Txt, write_decimal};
use std::alloc::{AllocError, Global};

/// What is drawn for a bid request: a floor in cents, and a country and a system, which are told by their numbers.
#[derive(Clone, Copy)]
pub(crate) struct RequestDraws {
    pub cents: u32,
    pub country: u32,
    pub system: Option<u32>,
}

// A body has fewer bytes than this, so its memory is taken once.
const ROOM: usize = 128;

/// The body, in memory that is made for it.
pub(crate) fn write_request(
    alloc: Global,
    number: u32,
    draws: RequestDraws,
) -> Result<Txt, AllocError>
    requires { AreShort draws }
    ensures { IfOk result (λ body. body ≡ request_text number draws) }
{
    let mut body = Txt::from_vec(Vec::with_capacity(alloc, ROOM)?);
    write_over(number, draws, &mut body)?;
    Ok(body)
}

/// Puts the body in the place of what the text was.
pub(crate) fn write_over(number: u32, draws: RequestDraws, body: &mut Txt) -> Result<(), AllocError>
    requires { AreShort draws }
    ensures { OnOk result (body.new ≡ request_text number draws) }
{
    body.truncate(0);
    put_floor(number, draws.cents, body)?;
    put_device(draws.country, draws.system, body)
}

// Appends the number and the floor, with what stands before them.
#[tactic(auto, unfolding(crate::specs::Texts::numbered))]
fn put_floor(number: u32, cents: u32, body: &mut Txt) -> Result<(), AllocError>
    requires { cents < 100 }
    ensures { OnOk result (body.new ≡ body.old ++ numbered (codes "{\"id\":\"r") number (codes "\",") ++ floor_text cents) }
{
    body.extend(b"{\"id\":\"r")?;
    write_decimal(u64::from(number), body)?;
    put_cents(cents, body)
}

// Appends what stands behind the number up to the floor: `0`, or `0.` and one digit or two.
fn put_cents(cents: u32, body: &mut Txt) -> Result<(), AllocError>
    requires { cents < 100 }
    ensures { OnOk result (body.new ≡ body.old ++ codes "\"," ++ floor_text cents) }
{
    let mut text = *b"\",\"imp\":[{\"id\":\"1\",\"bidfloor\":0.00";
    text[32] = digit(cents / 10);
    text[33] = digit(cents % 10);
    body.extend(&text[..shown(cents)])
}

// How many bytes of the floor's text are shown.
fn shown(cents: u32) -> usize
    ensures { result ≡ (if cents == 0 then 31 else if cents % 10 == 0 then 33 else 34) }
{
    if cents == 0 {
        31
    } else if cents % 10 == 0 {
        33
    } else {
        34
    }
}

// Where the digit of the country and that of the system stand.
const COUNTRY: usize = 44;

const SYSTEM: usize = 55;

// Appends the country and the system, and the end.
fn put_device(country: u32, system: Option<u32>, body: &mut Txt) -> Result<(), AllocError>
    requires country { country < 10 }
    requires system { IfSome system (λ s. s < 10) }
    ensures { OnOk result (body.new ≡ body.old ++ country_text country ++ told_system system ++ codes "}}") }
{
    match system {
        Some(system) => put_both(country, system, body),
        None => put_country(country, body),
    }
}

fn put_both(country: u32, system: u32, body: &mut Txt) -> Result<(), AllocError>
    requires country { country < 10 }
    requires system { system < 10 }
    ensures { OnOk result (body.new ≡ body.old ++ country_text country ++ system_of system ++ codes "}}") }
{
    let mut text = *b",\"banner\":{}}],\"device\":{\"geo\":{\"country\":\"c0\"},\"os\":\"o0\"}}";
    text[COUNTRY] = digit(country);
    text[SYSTEM] = digit(system);
    body.extend(&text)
}

fn put_country(country: u32, body: &mut Txt) -> Result<(), AllocError>
    requires country { country < 10 }
    ensures { OnOk result (body.new ≡ body.old ++ country_text country ++ codes "}}") }
{
    let mut text = *b",\"banner\":{}}],\"device\":{\"geo\":{\"country\":\"c0\"}}}";
    text[COUNTRY] = digit(country);
    body.extend(&text)
}

// The digit of a number below 10.
fn digit(n: u32) -> u8
    requires { n < 10 }
    ensures { result ≡ 48 + n }
{
    b'0' + n as u8
}
