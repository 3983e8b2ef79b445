//! Campaigns found for impressions, by an index or by asking each.
ghost use Rattle.std.specs.Prelude.{◌≡◌, ◌≤◌, ◌<◌, IfOk};
ghost use Rattle.conj_index.specs.Campaigns.{DoRise, conjunctions_in};

use crate::generated::{campaigns, impressions};
use crate::profile::fields_of;
use crate::put_number;
use conj_index::{Builder, Index, Scratch, scan};
use rtb_base::Steps;
use rtb_num::Txt;
use std::alloc::{AllocError, Global};
use std::marker::Brand;
use std::sync::ledger::{Blank, Ledger};
use target_expr::{Assignment, Expr};

// The most campaigns.
const MOST: u32 = 65_536;

/// How many campaigns were found, and the checksum of their numbers, each up to multiples of 2^64.
#[derive(Clone, Copy)]
struct Sums {
    found: u64,
    check: u64,
}

/// Draws so many campaigns and impressions of the profile, and finds those of each impression. Appends how many were
/// found, and the checksum of their numbers.
pub fn put_sums(
    alloc: Global,
    by_index: bool,
    profile: &[u8],
    campaigns: u32,
    impressions: u32,
    line: &mut Txt,
) -> Result<(), AllocError> {
    let sums = sums_of::<Brand>(
        alloc,
        by_index,
        profile,
        campaigns,
        impressions,
        Blank::new(1),
    )?;
    put_number(b"found=", sums.found, line)?;
    put_number(b" check=", sums.check, line)?;
    line.extend(b"\n")
}

fn sums_of<L: Ledger>(
    alloc: Global,
    by_index: bool,
    profile: &[u8],
    count: u32,
    asked: u32,
    blank: Blank,
) -> Result<Sums, AllocError>
    requires name { blank.name ≡ L.name }
    requires parts { blank.parts ≡ L.parts }
    requires some { 0 < blank.parts }
{
    let mut steps = Steps::<L>::new(blank);
    let fields = fields_of(profile);
    let campaigns = campaigns(alloc, fields, count.min(MOST))?;
    let asked = impressions(alloc, fields, asked)?;
    if by_index {
        return find_all(alloc, campaigns.as_slice(), asked.as_slice(), &mut steps);
    }
    scan_all(alloc, campaigns.as_slice(), asked.as_slice(), &mut steps)
}

fn find_all<L: Ledger>(
    alloc: Global,
    campaigns: &[(u32, Expr)],
    asked: &[Assignment],
    steps: &mut Steps<L>,
) -> Result<Sums, AllocError>
    requires rising { DoRise campaigns.now }
    requires few { conjunctions_in campaigns.now ≤ 1000000 }
{
    let index = index_of(alloc, campaigns, steps)?;
    let mut sums = Sums { found: 0, check: 0 };
    let mut scratch = Scratch::new(alloc);
    for assignment in asked {
        let numbers = index.find_with(alloc, &mut scratch, assignment, steps)?;
        sums = with_numbers(sums, numbers.as_slice());
    }
    Ok(sums)
}

// The index of the campaigns.
fn index_of<L: Ledger>(
    alloc: Global,
    campaigns: &[(u32, Expr)],
    steps: &mut Steps<L>,
) -> Result<Index, AllocError>
    requires rising { DoRise campaigns.now }
    requires few { conjunctions_in campaigns.now ≤ 1000000 }
{
    let builder = with_all(alloc, campaigns, steps)?;
    match Index::build(alloc, builder, steps) {
        Ok(index) => Ok(index),
        Err(_) => Err(AllocError),
    }
}

// A builder with the campaigns.
fn with_all<'a, L: Ledger>(
    alloc: Global,
    campaigns: &'a [(u32, Expr)],
    steps: &mut Steps<L>,
) -> Result<Builder<'a>, AllocError>
    requires rising { DoRise campaigns.now }
    requires few { conjunctions_in campaigns.now ≤ 1000000 }
    ensures { IfOk result (λ builder. builder ≡ campaigns.now) }
{
    let mut builder = Builder::new(alloc);
    for (number, expr) in campaigns {
        builder.add(*number, expr, steps)?;
    }
    Ok(builder)
}

fn scan_all<L: Ledger>(
    alloc: Global,
    campaigns: &[(u32, Expr)],
    asked: &[Assignment],
    steps: &mut Steps<L>,
) -> Result<Sums, AllocError> {
    let mut sums = Sums { found: 0, check: 0 };
    for assignment in asked {
        let numbers = scan(alloc, campaigns, assignment, steps)?;
        sums = with_numbers(sums, numbers.as_slice());
    }
    Ok(sums)
}

// These numbers besides.
fn with_numbers(sums: Sums, numbers: &[u32]) -> Sums {
    let mut check = sums.check;
    for number in numbers {
        check = check.wrapping_mul(31).wrapping_add(u64::from(*number));
    }
    Sums {
        found: sums.found.wrapping_add(numbers.len() as u64),
        check,
    }
}
