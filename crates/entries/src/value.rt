// Single values at a place, and values after their keys: a number under a head, and a string of a kind.
ghost use Rattle.std.specs.Prelude.{◌≡◌, ◌&&◌, ◌≤◌, ◌<◌, length};
ghost use Rattle.cbor_item_spec.specs.Utf8.{is_utf8};
ghost use Rattle.cbor_item_spec.specs.Head.{span_read};
ghost use Rattle.entries_spec.specs.declared.Kind.TheVariants as Kind;
ghost use Rattle.entries_spec.specs.Kinds.{within, major_of, is_kind};
ghost use Rattle.entries_spec.specs.Value.{count_at, time_at, kind_at, keyed_at, flag, opt_kind_at};
ghost use Rattle.entries.specs.Code.{after_key, count_read, optional_read};

use cbor_item::Span;
pub use entries_spec::{Kind, Place};
use octets::has_at;

// The last moment: a time is any unsigned integer.
const LAST_TIME: u64 = 18446744073709551615;

// The place and the size that are handed on where a value is absent.
pub const ABSENT: Place = Place { at: 0, size: 0 };

// The place after a key, where the key stands at `at`.
pub fn after_key(s: &[u8], at: usize, key: &[u8]) -> Option<usize>
    ensures { result ≡ after_key s.now at key.now }
{
    if has_at(s, at, key) {
        return Some(at + key.len());
    }
    None
}

// A number from lo to hi, which is below 24, under a head of the major type: the head is one byte.
fn small_count_at(s: &[u8], at: usize, major: u8, lo: u64, hi: u64) -> Option<(u64, usize)>
    requires { hi < 24 }
    ensures { count_read result ≡ count_at s.now at major lo hi }
{
    if s.len() <= at {
        return None;
    }
    let number = (s[at] % 32) as u64;
    if (s[at] / 32 == major) & ((lo <= number) & (number <= hi)) {
        return Some((number, at + 1));
    }
    None
}

// A number from lo to hi under a head of the major type.
#[tactic(auto, unfolding(entries_spec::specs::Value::count_at, exact::specs::Reads::bind, exact::specs::Reads::guard))]
pub fn count_at(s: &[u8], at: usize, major: u8, lo: u64, hi: u64) -> Option<(u64, usize)>
    ensures { count_read result ≡ count_at s.now at major lo hi }
{
    if hi < 24 {
        return small_count_at(s, at, major, lo, hi);
    }
    let (head, next) = cbor_item::read_head(s, at)?;
    if (head.major == major) & ((lo <= head.number) & (head.number <= hi)) {
        return Some((head.number, next));
    }
    None
}

// A number from lo to hi under a head of the major type, after its key.
#[tactic(auto, using(crate::proofs::Laws::key_to, crate::proofs::Laws::key_not), unfolding(exact::specs::Reads::guard))]
pub fn keyed_count(
    s: &[u8],
    at: usize,
    key: &[u8],
    major: u8,
    lo: u64,
    hi: u64,
) -> Option<(u64, usize)>
    ensures { count_read result ≡ keyed_at s.now at key.now (λ n. count_at s.now n major lo hi) }
{
    count_at(s, after_key(s, at, key)?, major, lo, hi)
}

// A time after its key.
pub fn keyed_time(s: &[u8], at: usize, key: &[u8]) -> Option<(u64, usize)>
    ensures { count_read result ≡ keyed_at s.now at key.now (time_at s.now) }
{
    keyed_count(s, at, key, 0, 0, LAST_TIME)
}

// The major type of a kind.
fn major_of(kind: Kind) -> u8
    ensures { result ≡ major_of kind }
{
    match kind {
        Kind::Text { lo: _, hi: _ } => 3,
        Kind::Bytes { lo: _, hi: _ } => 2,
        Kind::Terminal => 3,
        Kind::Fay => 3,
        Kind::Pattern => 3,
    }
}

// Whether c has lo to hi bytes.
fn has_length(c: &[u8], lo: usize, hi: usize) -> bool
    ensures { result ≡ within lo hi (length c.now) }
{
    (lo <= c.len()) & (c.len() <= hi)
}

// Whether c has lo to hi bytes and is valid UTF-8.
fn is_text(c: &[u8], lo: usize, hi: usize) -> bool
    ensures { result ≡ (within lo hi (length c.now) && is_utf8 c.now) }
{
    if has_length(c, lo, hi) {
        return cbor_item::is_utf8(c);
    }
    false
}

// Whether c is a string of the kind. An identifier or a pattern is ASCII, so that no second pass for UTF-8 is needed.
#[tactic(auto, unfolding(entries_spec::specs::Kinds::is_kind))]
fn is_kind(kind: Kind, c: &[u8]) -> bool
    ensures { result ≡ is_kind kind c.now }
{
    match kind {
        Kind::Text { lo, hi } => is_text(c, lo, hi),
        Kind::Bytes { lo, hi } => has_length(c, lo, hi),
        Kind::Terminal => resource::is_terminal(c),
        Kind::Fay => resource::is_fay(c),
        Kind::Pattern => resource::is_pattern(c),
    }
}

// A string of a kind.
#[tactic(auto, using(crate::proofs::Laws::span_bound, octets::proofs::PartLaws::lent_part), unfolding(entries_spec::specs::Value::kind_at, entries_spec::specs::Value::string_at, exact::specs::Reads::bind, exact::specs::Reads::guard))]
pub fn string_at(s: &[u8], at: usize, kind: Kind) -> Option<Span>
    ensures { span_read result ≡ kind_at kind s.now at }
{
    let span = cbor_item::read_span(s, at, major_of(kind))?;
    let end = span.start + span.len;
    if is_kind(kind, &s[span.start..end]) {
        return Some(span);
    }
    None
}

// A text of lo to hi bytes. It is no call of `string_at` with the kind of such a text: by that a signature took a sixth longer to read.
#[tactic(auto, using(crate::proofs::Laws::span_bound, octets::proofs::PartLaws::lent_part), unfolding(entries_spec::specs::Value::kind_at, entries_spec::specs::Value::string_at, exact::specs::Reads::bind, exact::specs::Reads::guard, entries_spec::specs::Kinds::is_kind))]
pub fn text_at(s: &[u8], at: usize, lo: usize, hi: usize) -> Option<Span>
    ensures { span_read result ≡ kind_at (Kind.Text lo hi) s.now at }
{
    let span = cbor_item::read_span(s, at, 3)?;
    let end = span.start + span.len;
    if is_text(&s[span.start..end], lo, hi) {
        return Some(span);
    }
    None
}

// A text of lo to hi bytes after its key; over `text_at`, as `keyed` is over `string_at`.
#[tactic(auto, using(crate::proofs::Laws::key_to, crate::proofs::Laws::key_not), unfolding(exact::specs::Reads::guard))]
pub fn keyed_text(s: &[u8], at: usize, key: &[u8], lo: usize, hi: usize) -> Option<Span>
    ensures { span_read result ≡ keyed_at s.now at key.now (kind_at (Kind.Text lo hi) s.now) }
{
    text_at(s, after_key(s, at, key)?, lo, hi)
}

// A string of a kind after its key.
#[tactic(auto, using(crate::proofs::Laws::key_to, crate::proofs::Laws::key_not), unfolding(exact::specs::Reads::guard))]
pub fn keyed(s: &[u8], at: usize, key: &[u8], kind: Kind) -> Option<Span>
    ensures { span_read result ≡ keyed_at s.now at key.now (kind_at kind s.now) }
{
    string_at(s, after_key(s, at, key)?, kind)
}

// How many keys an optional value has.
pub fn keys_of(value: Option<Place>) -> u64
    ensures value { result ≡ flag value }
    ensures upper_bound { result ≤ 1 }
{
    match value {
        Some(_) => 1,
        None => 0,
    }
}

// An optional string of a kind after its key, where the key stands at `at`.
#[tactic(auto, using(crate::proofs::Laws::key_to, crate::proofs::Laws::key_not, entries_spec::proofs::ValueBounds::string_room), unfolding(entries_spec::specs::Value::opt_kind_at, entries_spec::specs::Value::or_absent, exact::specs::Reads::bind))]
pub fn opt_keyed(s: &[u8], at: usize, key: &[u8], kind: Kind) -> Option<(Option<Place>, usize)>
    ensures { optional_read result ≡ opt_kind_at s.now at key.now kind }
{
    let Some(place) = after_key(s, at, key) else {
        return Some((None, at));
    };
    let span = string_at(s, place, kind)?;
    let value = Place {
        at: span.start,
        size: span.len as u64,
    };
    Some((Some(value), span.start + span.len))
}
