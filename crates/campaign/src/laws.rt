//! The laws of facts as bytes: where they end, and that what was encoded is read again.
ghost use Rattle.std.specs.Prelude.{◌≡◌, ℕ, ◌+◌, List, ◌++◌, length, Option, Some};
ghost use Rattle.byte_fields.specs.Codes.{IsCode, IsReadAt};
ghost use Rattle.campaign.specs.declared.parts.FactParts.{FactParts};
ghost use Rattle.campaign.specs.Encoding.{facts_bytes};
ghost use Rattle.campaign.specs.Kept.{IsEncodable, IsKept, without_cap};

/// The law of the ends, with nothing to run: no facts' bytes are a front of another's, so bytes that
/// begin with facts have one reading, but for the cap, which they leave out.
pub fn facts_tell_their_ends()
    ensures uncapped { IsCode IsEncodable facts_bytes }
    ensures capped { (p q : FactParts) (s t : List ℕ) → IsKept p → IsKept q → facts_bytes p ++ s ≡ facts_bytes q ++ t → (without_cap p ≡ without_cap q) × (s ≡ t) }
{}

/// The law of reading again, with nothing to run: whatever is read at the place where facts were put,
/// between any bytes, is these facts but for their cap, and the place behind them.
pub fn encoded_facts_are_read_again()
    ensures { (front back : List ℕ) (p : FactParts) (found : Option (FactParts × ℕ)) → IsKept p
        → IsReadAt IsEncodable facts_bytes ((front ++ facts_bytes p) ++ back) (length front) found → found ≡ Some (without_cap p, length front + length (facts_bytes p)) }
{}
