// The order of byte strings, and how one begins.
ghost use Rattle.std.specs.Prelude.{◌≡◌};
ghost use Rattle.values.specs.Order.{compare_bytes, is_less, starts_with};

use std::cmp::Ordering;

// By byte; a shorter beginning of the other is the lower. First bytes tell most apart, and are asked here, where that costs no call.
#[inline(always)]
#[tactic(auto, using(crate::specs::laws::ByteOrderLaws::slices_compare))]
pub fn compare_bytes(a: &[u8], b: &[u8]) -> Ordering
    ensures { result ≡ compare_bytes a.now b.now }
{
    if !a.is_empty() && !b.is_empty() && a[0] != b[0] {
        return a[0].cmp(&b[0]);
    }
    a.cmp(b)
}

// Whether a is below b.
pub fn is_less(a: &[u8], b: &[u8]) -> bool
    ensures { result ≡ is_less (compare_bytes a.now b.now) }
{
    compare_bytes(a, b).is_lt()
}

// Whether the first bytes of s are those of prefix.
#[tactic(auto, using(crate::specs::laws::ByteOrderLaws::slices_start))]
pub fn starts_with(s: &[u8], prefix: &[u8]) -> bool
    ensures { result ≡ starts_with s.now prefix.now }
{
    s.starts_with(prefix)
}
