//! What was made first, with what is made behind it.
ghost use Rattle.std.specs.Prelude.{◌≡◌, Err, IfErr, IfOk};

use std::alloc::AllocError;

/// What was made first, with what is made behind it; refused exactly where that is.
///
/// A type parameter is let go of in one step, so one who makes many values, each with what was made before
/// it, lets go of nothing value by value.
pub fn pair_with<A: Drop, B: Drop>(
    first: A,
    second: Result<B, AllocError>,
) -> Result<(A, B), AllocError>
    ensures made { (a : _) (b : _) → first ≡ a → IfOk second (λ y. y ≡ b) → IfOk result (λ r. r ≡ (a, b)) }
    ensures refused { IfErr result (λ e. second ≡ Err e) }
{
    let second = second?;
    Ok((first, second))
}
