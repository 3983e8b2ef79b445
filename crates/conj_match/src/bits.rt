//! Bits of numbers in words.
ghost use Rattle.std.specs.Prelude.{◌≡◌, ◌≢◌, ◌≤◌, ◌<◌, ◌+◌, ◌*◌, ◌^◌, ◌==◌, ◌||◌, ℕ, true, List, length, OnOk};
ghost use Rattle.std.specs.List.{list_any};
ghost use Rattle.postings.specs.Packed.{is_marked};
ghost use Rattle.conj_match.specs.Bits.{AreSet, AreThose, IsWord};

use std::alloc::AllocError;

/// Sets the bit of the number, where the words have one for it.
#[inline(always)]
pub(crate) fn set_bit(bits: &mut [u64], number: usize)
    ensures len { length bits.new ≡ length bits.old }
    ensures set { AreSet (λ i. i == number) bits.old bits.new }
{
    if number / 64 < bits.len() {
        bits[number / 64] |= 1 << (number % 64);
    }
}

/// Sets the bits of these numbers.
pub(crate) fn set_bits(bits: &mut [u64], numbers: &[u32])
    ensures len { length bits.new ≡ length bits.old }
    ensures set { AreSet (λ i. list_any (λ n. i == n) numbers.now) bits.old bits.new }
{
    for number in numbers {
        set_bit(bits, *number as usize);
    }
}

/// Appends the numbers whose bits are set, in rising order.
pub(crate) fn push_numbers(bits: &[u64], numbers: &mut Vec<u32>) -> Result<(), AllocError>
    requires few { length bits.now ≤ 2 ^ 26 }
    requires none { length numbers.old.items ≡ 0 }
    ensures { OnOk result (AreThose (is_marked bits.now) (64 * length bits.now) numbers.new.items) }
{
    for (place, word) in bits.iter().enumerate() {
        push_word(*word, 64 * place as u32, numbers)?;
    }
    Ok(())
}

// Appends the numbers of the bits of one word, the first of which is `base`.
#[inline(always)]
fn push_word(word: u64, base: u32, numbers: &mut Vec<u32>) -> Result<(), AllocError>
    requires { base + 64 ≤ 2 ^ 32 }
    ensures { OnOk result ((bits : List ℕ) → IsWord bits base word → AreThose (is_marked bits) base numbers.old.items → AreThose (is_marked bits) (base + 64) numbers.new.items) }
{
    if word == 0 {
        return Ok(());
    }
    push_bits(word, base, numbers)
}

// The same, of a word that has bits. It stands apart, so that going past words that have none is a short
// loop.
#[inline(never)]
fn push_bits(word: u64, base: u32, numbers: &mut Vec<u32>) -> Result<(), AllocError>
    requires { base + 64 ≤ 2 ^ 32 }
    ensures { OnOk result ((bits : List ℕ) → IsWord bits base word → AreThose (is_marked bits) base numbers.old.items → AreThose (is_marked bits) (base + 64) numbers.new.items) }
{
    let mut rest = word;
    while rest != 0 {
        let bit = rest.trailing_zeros();
        numbers.push(base + bit)?;
        rest &= !(1 << bit);
    }
    Ok(())
}
