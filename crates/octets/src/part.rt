// Parts of lent bytes.
ghost use Rattle.octets.specs.Bytes.{PartOf};
ghost use Rattle.octets.specs.Span.{inside as insideOf};

// The n bytes from `start` on where s has them, as the part of s itself, else the empty part at the start.
pub fn part_at(s: &[u8], start: usize, n: usize) -> &[u8]
    ensures { PartOf s.entry result (insideOf s.now start n).start (insideOf s.now start n).len }
{
    if s.len() < start || s.len() - start < n {
        return &s[..0];
    }
    &s[start..start + n]
}
