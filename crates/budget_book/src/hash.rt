//! Hashes of campaigns and users. They spread the sales over the places of `LastSales`.
ghost use Rattle.std.specs.Prelude.{◌≡◌, ◌<◌, fold};
ghost use Rattle.budget_book.specs.LastSales.{mixed, place_in, user_hash, with_byte};

// The factor of the hash FNV-1 in 64 bits.
const BYTE_FACTOR: u64 = 1_099_511_628_211;

// 2^64 divided by the golden ratio, so that the first bits depend on all others.
const GOLDEN: u64 = 11_400_714_819_323_198_485;

const CAMPAIGN_FACTOR: u64 = 14_029_467_366_897_019_727;

#[tactic(auto, unfolding(crate::specs::LastSales::user_hash))]
pub(crate) fn hash_user(user: &[u8]) -> u64
    ensures { result ≡ user_hash user.now }
{
    user.iter().fold(0, |hash, byte| with_byte(hash, *byte))
}

// The hash of the bytes so far, with one more.
fn with_byte(hash: u64, byte: u8) -> u64
    ensures { result ≡ with_byte hash byte }
{
    hash.wrapping_mul(BYTE_FACTOR).wrapping_add(u64::from(byte))
}

// The hash of the campaign and the user of that hash.
#[tactic(auto, unfolding(crate::specs::LastSales::mixed))]
pub(crate) fn mix(campaign: u32, user_hash: u64) -> u64
    ensures { result ≡ mixed campaign user_hash }
{
    u64::from(campaign)
        .wrapping_mul(CAMPAIGN_FACTOR)
        .wrapping_add(user_hash)
        .wrapping_mul(GOLDEN)
}

// At which place the last sale of a campaign to a user of that hash is kept.
#[tactic(auto, unfolding(crate::specs::LastSales::place_in))]
pub(crate) fn place_in(hash: u64) -> usize
    ensures place { result ≡ place_in hash }
    ensures few { result < 1048576 }
{
    (hash >> 44) as usize
}
