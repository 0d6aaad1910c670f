// Bytes at a place, and their order.
ghost use Rattle.std.specs.Prelude.{◌≡◌};
ghost use Rattle.octets.specs.Bytes.{has_at};
ghost use Rattle.octets.specs.Order.{before as beforeOf};

// Whether the bytes of s at the place begin with k. The first byte is looked at alone, since most texts that are not k differ there; then
// all are compared with no way out before the last, so that many are compared at once. The library's `starts_with` was three times slower
// for 33 to 64 bytes.
#[tactic(auto, using(crate::proofs::BytesLaws::has_at_none, crate::proofs::BytesLaws::has_at_short, crate::proofs::BytesLaws::has_at_differs))]
pub fn has_at(s: &[u8], at: usize, k: &[u8]) -> bool
    ensures { result ≡ has_at s.now at k.now }
{
    if k.is_empty() {
        return true;
    }
    if s.len() < k.len() || s.len() - k.len() < at || s[at] != k[0] {
        return false;
    }
    let mut ok = true;
    for i in 0..k.len() {
        ok &= s[at + i] == k[i];
    }
    ok
}

// Whether x stands before y in bytewise order.
pub fn before(x: &[u8], y: &[u8]) -> bool
    ensures { result ≡ beforeOf x.now y.now }
{
    x < y
}
