// Comparing bytes.
ghost use Rattle.std.specs.Prelude.{◌≡◌, ◌&&◌, leb, length, take};
ghost use Rattle.octets.specs.Bytes.{same};

// Whether both have n bytes and begin with the same n bytes. There is no way out before the last byte, so that many are compared at once;
// the library's `==` on slices was slower at a size that is a constant.
#[tactic(auto, using(crate::proofs::SameLaws::start_short))]
pub fn same_start(a: &[u8], b: &[u8], n: usize) -> bool
    ensures { result ≡ (leb n (length a.now) && (leb n (length b.now)
        && same (take n a.now) (take n b.now))) }
{
    if a.len() < n || b.len() < n {
        return false;
    }
    let mut ok = true;
    for i in 0..n {
        ok &= a[i] == b[i];
    }
    ok
}

// Whether the two are the same bytes. The last byte is looked at alone first, since identifiers and signatures differ there;
// with the library's `==` after it this was slower where they do.
#[tactic(auto, using(crate::proofs::SameLaws::same_long, crate::proofs::SameLaws::same_ends))]
pub fn same_bytes(a: &[u8], b: &[u8]) -> bool
    ensures { result ≡ same a.now b.now }
{
    let n = a.len();
    if n != b.len() {
        return false;
    }
    if 0 < n && a[n - 1] != b[n - 1] {
        return false;
    }
    same_start(a, b, n)
}
