//! The laws of effects as bytes: where each ends, and that what was encoded is read again.
ghost use Rattle.std.specs.Prelude.{◌≡◌, All, List, MatchResult, Result};
ghost use Rattle.byte_fields.specs.Codes.{IsCode};
ghost use Rattle.effects.specs.Bytes.{IsDecoded, IsEncodable, effect_bytes, effects_bytes};
ghost use Rattle.effects.specs.Examples.{forgot, forgot_bytes, pause, pause_bytes, sale, sale_bytes, sale_to_user, sale_to_user_bytes};
ghost use Rattle.effects.specs.declared.fault.EffectFault.{EffectFault};
ghost use Rattle.plain_exchange.specs.declared.changes.Effect.{Effect};

/// The law of the ends, with nothing to run: no effect's bytes are a front of another's, so bytes that
/// begin with an effect have one reading.
pub fn effects_tell_their_ends()
    ensures { IsCode IsEncodable effect_bytes }
{}

/// The law of reading again, with nothing to run: whatever is decoded of the bytes of effects is these
/// effects, or memory ran out.
pub fn encoded_effects_are_read_again()
    ensures { (es : List Effect) (found : Result (List Effect) EffectFault) → All IsEncodable es → IsDecoded (effects_bytes es) found → MatchResult found (λ fs. fs ≡ es) (λ fault. fault ≡ EffectFault.Memory) }
{}

/// Four effects whose bytes are written out, with nothing to run.
pub fn examples_have_their_bytes()
    ensures pause { effect_bytes pause ≡ pause_bytes }
    ensures sale { effect_bytes sale ≡ sale_bytes }
    ensures sale_to_user { effect_bytes sale_to_user ≡ sale_to_user_bytes }
    ensures forgot { effect_bytes forgot ≡ forgot_bytes }
{}
