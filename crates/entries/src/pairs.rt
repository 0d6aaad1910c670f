// Maps of pairs: metadata and constraints.
ghost use Rattle.std.specs.Prelude.{◌≡◌, ◌+◌, ◌≤◌, length};
ghost use Rattle.octets.specs.Span.{span_of};
ghost use Rattle.entries_spec.specs.Reader.{pair_at, pairs_at, opt_pairs_at};
ghost use Rattle.entries.specs.Code.{pair_read, count_read, optional_read};

use crate::value::{Kind, Place, after_key, count_at, string_at};
use cbor_item::Span;
use octets::before;

// One pair after the key whose encoding is the part `last`: the new key's part, and the place after the pair.
#[tactic(auto, using(entries_spec::proofs::ValueBounds::string_room, octets::proofs::PartLaws::lent_part), unfolding(entries_spec::specs::Reader::pair_at, octets::specs::Bytes::part, exact::specs::Reads::bind, exact::specs::Reads::guard))]
fn pair_at(s: &[u8], last: Span, at: usize) -> Option<(Span, usize)>
    requires { last.start + last.len ≤ length s.now }
    ensures { pair_read result ≡ pair_at s.now (span_of last.start last.len) at }
{
    let key = string_at(s, at, Kind::Text { lo: 1, hi: 64 })?;
    let end = key.start + key.len;
    if !before(&s[last.start..last.start + last.len], &s[at..end]) {
        return None;
    }
    let value = string_at(s, end, Kind::Text { lo: 0, hi: 256 })?;
    let part = Span {
        start: at,
        len: end - at,
    };
    Some((part, value.start + value.len))
}

// A map of at most so many pairs.
#[tactic(auto, using(entries_spec::proofs::ValueBounds::pair_room, exact::proofs::CountedLaws::many_begin, exact::proofs::CountedLaws::many_next, exact::proofs::CountedLaws::many_stop, exact::proofs::CountedLaws::many_done), unfolding(entries_spec::specs::Reader::pairs_at, exact::specs::Reads::bind))]
pub fn pairs_at(s: &[u8], most: u64, at: usize) -> Option<(u64, usize)>
    ensures { count_read result ≡ pairs_at s.now most at }
{
    let (count, next) = count_at(s, at, 5, 0, most)?;
    let mut last = Span { start: 0, len: 0 };
    let mut here = next;
    for _ in 0..count {
        (last, here) = pair_at(s, last, here)?;
    }
    Some((count, here))
}

// An optional map of at most so many pairs after its key, where the key stands at `at`. `opt_keyed` has this shape too; with a closure for the
// reader neither would have fewer lines.
#[tactic(auto, using(crate::proofs::Laws::key_to, crate::proofs::Laws::key_not), unfolding(entries_spec::specs::Reader::opt_pairs_at, entries_spec::specs::Value::or_absent, exact::specs::Reads::bind))]
pub fn opt_pairs(s: &[u8], at: usize, key: &[u8], most: u64) -> Option<(Option<Place>, usize)>
    ensures { optional_read result ≡ opt_pairs_at s.now at key.now most }
{
    let Some(place) = after_key(s, at, key) else {
        return Some((None, at));
    };
    let (count, next) = pairs_at(s, most, place)?;
    let value = Place {
        at: place,
        size: count,
    };
    Some((Some(value), next))
}
