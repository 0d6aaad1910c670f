// What the grant reader does, over a plain slice and a place.
ghost use Rattle.std.specs.Prelude.{◌≡◌};
ghost use Rattle.descriptor.specs.Code.{grant_read};
ghost use Rattle.grant_reader.specs.Code.{start_of, place_after, nth_of};

use descriptor::{GrantFields, read_descriptor, read_grant};

// The place of the first grant; the end of the bytes where they don't read.
pub(crate) fn start_of(s: &[u8]) -> usize
    ensures { result ≡ start_of s.now }
{
    match read_descriptor(s) {
        Ok(fields) => fields.first,
        Err(_) => s.len(),
    }
}

// The place after the grant at a place; the place itself where there is none.
pub(crate) fn place_after(s: &[u8], at: usize) -> usize
    ensures { result ≡ place_after s.now at }
{
    match read_grant(s, at) {
        Some((_, next)) => next,
        None => at,
    }
}

// The grant with the index, counted from 0, of a descriptor; none past the last, and where the bytes don't read. For callers with plain
// bytes.
pub fn nth(s: &[u8], index: u64) -> Option<(GrantFields, usize)>
    ensures { grant_read result ≡ nth_of s.now index }
{
    let mut at = start_of(s);
    for _ in 0..index {
        let (_, next) = read_grant(s, at)?;
        at = next;
    }
    read_grant(s, at)
}
