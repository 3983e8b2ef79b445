//! Which of two texts is below the other in byte order.
ghost use Rattle.std.specs.Prelude.{◌≡◌};
ghost use Rattle.target_expr.specs.Kept.{text_below};

// The first bytes that differ tell, or else the lengths. Of a few bytes it is quickest to compare one after the other.
pub(crate) fn is_below(a: &[u8], b: &[u8]) -> bool
    ensures { result ≡ text_below a.now b.now }
{
    for i in 0..a.len().min(b.len()) {
        if a[i] != b[i] {
            return a[i] < b[i];
        }
    }
    a.len() < b.len()
}
