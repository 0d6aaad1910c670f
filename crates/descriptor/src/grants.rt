// Grants.
ghost use Rattle.std.specs.Prelude.{◌≡◌, true, ◌+◌, ◌≤◌, ◌<◌, length, eqb, Some};
ghost use Rattle.exact.specs.Reads.{got, guard};
ghost use Rattle.entries_spec.specs.Value.{flag};
ghost use Rattle.octets.specs.Bytes.{part};
ghost use Rattle.cbor_item_spec.specs.Head.{span_read};
ghost use Rattle.resource_spec.specs.Identifier.{is_terminal, terminal_size};
ghost use Rattle.descriptor_spec.specs.Reader.{grant_at, more_at, grants_at};
ghost use Rattle.descriptor.specs.Code.{TerminalFits, pattern_at, grant_under, grant_of, grant_read, sum_of, sum_read, grants_read};

use crate::GrantFields;
use crate::modes::modes_at;
use cbor_item::Span;
use entries::keys;
use entries::pairs::opt_pairs;
use entries::value::{ABSENT, Kind, Place, after_key, count_at, keyed, keyed_count, keys_of};
use resource::is_pattern_under;
use resource_spec::sizes::TERMINAL_SIZE;

// The union of masks and the number of constraint pairs.
#[derive(Clone, Copy)]
pub(crate) struct Sum {
    pub(crate) mask: u64,
    pub(crate) pairs: u64,
}

// Grants: how many, the place of the first, the place of its pattern, and the sum.
#[derive(Clone, Copy)]
pub(crate) struct GrantsFields {
    pub(crate) count: u64,
    pub(crate) start: usize,
    pub(crate) first: usize,
    pub(crate) sum: Sum,
}

// A grant whose map has as many keys as its head says.
#[tactic(auto, unfolding(exact::specs::Reads::guard))]
fn if_counts(
    count: u64,
    constraints: Option<Place>,
    fields: GrantFields,
    next: usize,
) -> Option<(GrantFields, usize)>
    ensures { grant_read result ≡ guard (eqb count (2 + flag constraints)) (got (grant_of fields) next) }
{
    if count == 2 + keys_of(constraints) {
        return Some((fields, next));
    }
    None
}

// The pattern of a grant after its key, which begins with the terminal id that stands at `first`: this id is not checked again.
#[tactic(auto, using(entries::proofs::Laws::key_to, entries::proofs::Laws::key_not, entries::proofs::Laws::span_bound, octets::proofs::PartLaws::lent_part), unfolding(entries_spec::specs::Keys::k_resource_pattern, entries_spec::specs::Value::string_at, exact::specs::Reads::bind, exact::specs::Reads::guard))]
fn pattern_under_at(s: &[u8], at: usize, first: usize) -> Option<Span>
    requires { first + terminal_size ≤ length s.now }
    ensures { span_read result ≡ pattern_at s.now (Some first) at }
{
    let place = after_key(s, at, &keys::RESOURCE_PATTERN)?;
    let pattern = cbor_item::read_span(s, place, 3)?;
    let end = pattern.start + pattern.len;
    if is_pattern_under(&s[pattern.start..end], &s[first..first + TERMINAL_SIZE]) {
        return Some(pattern);
    }
    None
}

// The pattern of a grant after its key, of any terminal id, or of the one that stands at the place.
#[tactic(auto, unfolding(entries_spec::specs::Value::kind_at, entries_spec::specs::Kinds::is_kind, entries_spec::specs::Keys::k_resource_pattern))]
fn pattern_at(s: &[u8], at: usize, terminal: Option<usize>) -> Option<Span>
    requires { TerminalFits s.now terminal }
    ensures { span_read result ≡ pattern_at s.now terminal at }
{
    match terminal {
        None => keyed(s, at, &keys::RESOURCE_PATTERN, Kind::Pattern),
        Some(first) => pattern_under_at(s, at, first),
    }
}

// The grant at a place, whose pattern has any terminal id, or the one that stands at the place.
#[tactic(auto, using(crate::proofs::RoomCode::modes_room, crate::proofs::UnderCode::pattern_ends), unfolding(crate::specs::Code::grant_under, entries_spec::specs::Keys::k_modes, entries_spec::specs::Keys::k_constraints, entries_spec::specs::Keys::k_resource_pattern, exact::specs::Reads::bind))]
fn grant_of(s: &[u8], at: usize, terminal: Option<usize>) -> Option<(GrantFields, usize)>
    requires { TerminalFits s.now terminal }
    ensures { grant_read result ≡ grant_under s.now terminal at }
{
    let (count, key) = count_at(s, at, 5, 2, 3)?;
    let (mask, next) = modes_at(s, key)?;
    let (constraints, next) = opt_pairs(s, next, &keys::CONSTRAINTS, 8)?;
    let pattern = pattern_at(s, next, terminal)?;
    let place = constraints.unwrap_or(ABSENT);
    let fields = GrantFields {
        mask,
        modes: key + 6,
        constraints: place.at,
        pairs: place.size,
        pattern: pattern.start,
        len: pattern.len,
    };
    if_counts(count, constraints, fields, pattern.start + pattern.len)
}

// The grant at a place, of any bytes, and the place after it.
#[tactic(auto, using(crate::proofs::UnderCode::any_grant))]
pub fn read_grant(s: &[u8], at: usize) -> Option<(GrantFields, usize)>
    ensures { grant_read result ≡ grant_at s.now at }
{
    grant_of(s, at, None)
}

// One more grant, whose pattern has the terminal id that stands at `first`.
fn more_at(s: &[u8], first: usize, sum: Sum, at: usize) -> Option<(Sum, usize)>
    requires terminal_size_in_bounds { (first + terminal_size ≤ length s.now) × (is_terminal (part s.now first terminal_size) ≡ true) }
    requires pairs_bound { sum.pairs < 4294967296 }
    ensures { sum_read result ≡ more_at s.now first (sum_of sum) at }
{
    let (fields, next) = grant_of(s, at, Some(first))?;
    let more = Sum {
        mask: sum.mask | fields.mask,
        pairs: sum.pairs + fields.pairs,
    };
    Some((more, next))
}

// 1 to 256 grants after their key.
#[tactic(auto, using(entries_spec::proofs::ValueBounds::count_room, crate::proofs::RoomCode::grant_room, crate::proofs::RoomCode::more_room, crate::proofs::UnderCode::grant_terminal, crate::proofs::GrantCode::grants_begin, crate::proofs::GrantCode::grants_next, crate::proofs::GrantCode::grants_stop, crate::proofs::GrantCode::grants_done), unfolding(descriptor_spec::specs::Reader::grants_at, entries_spec::specs::Keys::k_grants, exact::specs::Reads::bind))]
pub(crate) fn grants_at(s: &[u8], at: usize) -> Option<(GrantsFields, usize)>
    ensures { grants_read result ≡ grants_at s.now at }
{
    let (count, start) = keyed_count(s, at, &keys::GRANTS, 4, 1, 256)?;
    let (fields, next) = read_grant(s, start)?;
    let first = fields.pattern;
    let mut sum = Sum {
        mask: fields.mask,
        pairs: fields.pairs,
    };
    let mut here = next;
    for _ in 1..count {
        (sum, here) = more_at(s, first, sum, here)?;
    }
    let grants = GrantsFields {
        count,
        start,
        first,
        sum,
    };
    Some((grants, here))
}
