//! The laws of expressions as bytes and as they are kept.
ghost use Rattle.std.specs.Prelude.{◌≡◌, [], ℕ, ◌+◌, List, ◌++◌, length, Option, Some};
ghost use Rattle.byte_fields.specs.Codes.{IsCode, IsReadAt};
ghost use Rattle.target_expr.specs.declared.attr.Attr.{Attr};
ghost use Rattle.target_expr.specs.declared.pred.Pred.{Pred};
ghost use Rattle.target_expr.specs.declared.pred.RawPred.{RawPred};
ghost use Rattle.target_expr.specs.Bytes.{IsEncodable, expr_bytes};
ghost use Rattle.target_expr.specs.Kept.{faults, keep};
ghost use Rattle.target_expr.specs.Truth.{holds};
ghost use Rattle.target_expr.specs.Written.{written_holds};

/// The law of the ends, with nothing to run: no expression's bytes are a front of another's, so bytes
/// that begin with an expression have one reading.
pub fn expressions_tell_their_ends()
    ensures { IsCode IsEncodable expr_bytes }
{}

/// The law of reading again, with nothing to run: whatever is read at the place where an expression was
/// put, between any bytes, is this expression, and the place behind it.
pub fn encoded_expressions_are_read_again()
    ensures { (front back : List ℕ) (e : List (List Pred)) (found : Option (List (List Pred) × ℕ)) → IsEncodable e
        → IsReadAt IsEncodable expr_bytes ((front ++ expr_bytes e) ++ back) (length front) found → found ≡ Some (e, length front + length (expr_bytes e)) }
{}

/// The law of meaning, with nothing to run: under every assignment what is kept is true exactly where
/// what is written is.
pub fn keeping_changes_no_truth()
    ensures { (raw : List (List RawPred)) (pairs : List (Attr × List ℕ)) → faults raw ≡ [] → holds pairs (keep raw) ≡ written_holds pairs raw }
{}
