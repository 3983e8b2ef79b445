//! What was found first, with what was found behind it.
ghost use Rattle.std.specs.Prelude.{◌≡◌};
ghost use Rattle.std.specs.Option.{option_map};
ghost use Rattle.std.specs.Result.{result_map_both};

use crate::lists::Found;

/// What was found first, with what was found behind it.
///
/// A type parameter is let go of in one step, so no reader lets go of what was found before part by part.
pub fn paired<A: Drop, B: Drop>(first: A, behind: Found<B>) -> Found<(A, B)>
    ensures { result ≡ result_map_both (option_map (λ r. ((first, r.0), r.1))) (λ e. e) behind }
{
    let Some((second, next)) = behind? else {
        return Ok(None);
    };
    Ok(Some(((first, second), next)))
}
