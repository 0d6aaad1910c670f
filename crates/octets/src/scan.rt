// Looking for a byte.
ghost use Rattle.std.specs.Prelude.{◌≡◌, ◌+◌, ◌≤◌, length, drop};
ghost use Rattle.octets.specs.Scan.{bytes_before};

// The place of the first b from `from` on, or the end; `from` itself where it is past the end.
#[tactic(auto, using(crate::proofs::ScanLaws::before_next, crate::proofs::ScanLaws::before_stop, crate::proofs::ScanLaws::before_end, crate::proofs::ScanLaws::before_le))]
pub fn until(s: &[u8], from: usize, b: u8) -> usize
    ensures value { result ≡ from + bytes_before b (drop from s.now) }
    ensures upper_bound { from ≤ length s.now → result ≤ length s.now }
{
    for i in from..s.len() {
        if s[i] == b {
            return i;
        }
    }
    from.max(s.len())
}
