// The payload: the number of its keys, its grants, and the rest in three pieces.
ghost use Rattle.std.specs.Prelude.{◌≡◌, ◌+◌, ◌≤◌, length};
ghost use Rattle.exact.specs.Reads.{got, guard};
ghost use Rattle.resource_spec.specs.Identifier.{terminal_size};
ghost use Rattle.descriptor_spec.specs.Reader.{issue_at, grantor_at, ids_at, payload_fits, payload_at};
ghost use Rattle.descriptor.specs.Code.{issue_read, grantor_read, ids_read, payload_of, payload_read};

use crate::Part;
use crate::grants::{GrantsFields, grants_at};
use crate::ids::equal_terminals;
use descriptor_spec::sizes;
use entries::keys;
use entries::pairs::opt_pairs;
use entries::value::{Kind, Place, count_at, keyed, keyed_time, keys_of, opt_keyed};

// metadata, issued_at, issuer_id and not_after.
#[derive(Clone, Copy)]
pub(crate) struct IssueFields {
    pub(crate) metadata: Option<Place>,
    pub(crate) issued_at: u64,
    pub(crate) issuer: Part,
    pub(crate) not_after: u64,
}

// grantor_id and not_before.
#[derive(Clone, Copy)]
pub(crate) struct GrantorFields {
    pub(crate) grantor: Option<Place>,
    pub(crate) not_before: u64,
}

// The places of terminal_id, descriptor_id and subject_fay_id.
#[derive(Clone, Copy)]
pub(crate) struct IdsFields {
    pub(crate) terminal: usize,
    pub(crate) id: usize,
    pub(crate) fay: usize,
}

// A payload: the number of its keys, its grants and these pieces.
#[derive(Clone, Copy)]
pub(crate) struct PayloadFields {
    pub(crate) keys: u64,
    pub(crate) grants: GrantsFields,
    pub(crate) issue: IssueFields,
    pub(crate) grantor: GrantorFields,
    pub(crate) ids: IdsFields,
}

// metadata, issued_at, issuer_id and not_after.
#[tactic(auto, using(entries_spec::proofs::ValueBounds::string_ends), unfolding(descriptor_spec::specs::Reader::issue_at, entries_spec::specs::Keys::k_metadata, entries_spec::specs::Keys::k_issued_at, entries_spec::specs::Keys::k_issuer_id, entries_spec::specs::Keys::k_not_after, exact::specs::Reads::bind))]
fn issue_at(s: &[u8], at: usize) -> Option<(IssueFields, usize)>
    ensures { issue_read result ≡ issue_at s.now at }
{
    let (metadata, next) = opt_pairs(s, at, &keys::METADATA, 16)?;
    let (issued_at, next) = keyed_time(s, next, &keys::ISSUED_AT)?;
    let issuer = keyed(s, next, &keys::ISSUER_ID, Kind::Text { lo: 1, hi: 128 })?;
    let (not_after, next) = keyed_time(s, issuer.start + issuer.len, &keys::NOT_AFTER)?;
    let issue = IssueFields {
        metadata,
        issued_at,
        issuer: Part {
            at: issuer.start,
            len: issuer.len,
        },
        not_after,
    };
    Some((issue, next))
}

// grantor_id and not_before.
#[tactic(auto, unfolding(descriptor_spec::specs::Reader::grantor_at, entries_spec::specs::Keys::k_grantor_id, entries_spec::specs::Keys::k_not_before, exact::specs::Reads::bind))]
fn grantor_at(s: &[u8], at: usize) -> Option<(GrantorFields, usize)>
    ensures { grantor_read result ≡ grantor_at s.now at }
{
    let (grantor, next) = opt_keyed(s, at, &keys::GRANTOR_ID, Kind::Text { lo: 1, hi: 128 })?;
    let (not_before, next) = keyed_time(s, next, &keys::NOT_BEFORE)?;
    let grantor = GrantorFields {
        grantor,
        not_before,
    };
    Some((grantor, next))
}

// terminal_id, descriptor_id and subject_fay_id.
#[tactic(auto, using(entries_spec::proofs::ValueBounds::string_ends), unfolding(descriptor_spec::specs::Reader::ids_at, entries_spec::specs::Keys::k_terminal_id, entries_spec::specs::Keys::k_descriptor_id, entries_spec::specs::Keys::k_subject_fay_id, exact::specs::Reads::bind))]
fn ids_at(s: &[u8], at: usize) -> Option<(IdsFields, usize)>
    ensures { ids_read result ≡ ids_at s.now at }
{
    let terminal = keyed(s, at, &keys::TERMINAL_ID, Kind::Terminal)?;
    let bytes = Kind::Bytes {
        lo: sizes::ID_SIZE,
        hi: sizes::ID_SIZE,
    };
    let id = keyed(
        s,
        terminal.start + terminal.len,
        &keys::DESCRIPTOR_ID,
        bytes,
    )?;
    let fay = keyed(s, id.start + id.len, &keys::SUBJECT_FAY_ID, Kind::Fay)?;
    let ids = IdsFields {
        terminal: terminal.start,
        id: id.start,
        fay: fay.start,
    };
    Some((ids, fay.start + fay.len))
}

// A payload that meets the conditions on the whole.
#[tactic(auto, using(crate::proofs::PayloadCode::fits_test), unfolding(exact::specs::Reads::guard))]
fn if_fits(s: &[u8], payload: PayloadFields, next: usize) -> Option<(PayloadFields, usize)>
    requires { (payload.grants.first + terminal_size ≤ length s.now) × (payload.ids.terminal + terminal_size ≤ length s.now) }
    ensures { payload_read result ≡ guard (payload_fits s.now (payload_of payload)) (got (payload_of payload) next) }
{
    let grants = payload.grants;
    let issue = payload.issue;
    let grantor = payload.grantor;
    let ids = payload.ids;
    let keys = 8 + (keys_of(issue.metadata) + keys_of(grantor.grantor));
    let shared = equal_terminals(s, grants.first, ids.terminal);
    let lasts = (issue.issued_at <= grantor.not_before) & (grantor.not_before < issue.not_after);
    if (payload.keys == keys) & (shared & lasts) {
        return Some((payload, next));
    }
    None
}

// The payload at a place.
#[tactic(auto, using(crate::proofs::RoomCode::grants_room, crate::proofs::RoomCode::ids_room), unfolding(descriptor_spec::specs::Reader::payload_at, exact::specs::Reads::bind))]
pub(crate) fn payload_at(s: &[u8], at: usize) -> Option<(PayloadFields, usize)>
    ensures { payload_read result ≡ payload_at s.now at }
{
    let (keys, next) = count_at(s, at, 5, 8, 10)?;
    let (grants, next) = grants_at(s, next)?;
    let (issue, next) = issue_at(s, next)?;
    let (grantor, next) = grantor_at(s, next)?;
    let (ids, next) = ids_at(s, next)?;
    let payload = PayloadFields {
        keys,
        grants,
        issue,
        grantor,
        ids,
    };
    if_fits(s, payload, next)
}
