// The whole descriptor.
ghost use Rattle.std.specs.Prelude.{◌≡◌};
ghost use Rattle.descriptor_spec.specs.Reader.{formed_in, read_of};
ghost use Rattle.descriptor_spec.specs.Code.{fields_of, reading_of, form_of, within_period};
ghost use Rattle.descriptor.specs.Code.{seen_of};

use crate::payload::{PayloadFields, payload_at};
use crate::{Fields, Part, ReadError};
use descriptor_spec::sizes::{LONGEST, LONGEST_PERIOD};
use entries::keys;
use entries::signature::{SignatureFields, signature_at};
use entries::value::{ABSENT, after_key};
use time::Seconds;

// The fields of a payload of n bytes at 9 and a signature.
fn fields_of(p: PayloadFields, n: usize, g: SignatureFields) -> Fields
    ensures { result ≡ fields_of (seen_of p n g) }
{
    let grants = p.grants;
    let sum = grants.sum;
    let issue = p.issue;
    let metadata = issue.metadata.unwrap_or(ABSENT);
    let issuer = issue.issuer;
    let grantor = p.grantor;
    let named = grantor.grantor.unwrap_or(ABSENT);
    let ids = p.ids;
    Fields {
        payload: Part { at: 9, len: n },
        issued_at: Seconds(issue.issued_at),
        not_before: Seconds(grantor.not_before),
        not_after: Seconds(issue.not_after),
        id: ids.id,
        issuer,
        grantor: Part {
            at: named.at,
            len: named.size as usize,
        },
        fay: ids.fay,
        terminal: ids.terminal,
        grants: grants.count,
        first: grants.start,
        metadata: metadata.at,
        pairs: metadata.size,
        constraints: sum.pairs,
        mask: sum.mask,
        key: Part {
            at: g.key.start,
            len: g.key.len,
        },
        algorithm: g.algorithm,
        signature: Part {
            at: g.value.start,
            len: g.value.len,
        },
    }
}

// Reads s as a descriptor before its period is looked at: the fields of one that is allowed but for its period.
#[tactic(auto, using(entries::proofs::Laws::key_to, entries::proofs::Laws::key_not, crate::proofs::ReadCode::form_long, crate::proofs::ReadCode::form_refused, crate::proofs::ReadCode::form_more, crate::proofs::RoomCode::payload_room), unfolding(descriptor_spec::specs::Reader::descriptor_at, descriptor_spec::specs::Reader::before_payload, descriptor_spec::specs::Reader::before_key_id, entries_spec::specs::Keys::k_payload, entries_spec::specs::Keys::k_version, entries_spec::specs::Keys::k_signature, entries_spec::specs::Keys::k_key_id, exact::specs::Reads::bind, exact::specs::Reads::guard))]
pub fn read_form(s: &[u8]) -> Option<Fields>
    ensures { result ≡ form_of (formed_in s.now) }
{
    if LONGEST < s.len() {
        return None;
    }
    let begins = after_key(s, 0, &keys::BEFORE_PAYLOAD)?;
    let (payload, next) = payload_at(s, begins)?;
    let (signature, end) = signature_at(s, after_key(s, next, &keys::BEFORE_KEY_ID)?)?;
    if end != s.len() {
        return None;
    }
    Some(fields_of(payload, next - begins, signature))
}

// The latest end of a period is so long after its beginning: 90 days.
const PERIOD: Seconds = Seconds(LONGEST_PERIOD);

// What reading answers of a descriptor with these fields: 2 where its period is too long.
#[tactic(auto, using(crate::proofs::ReadCode::period_long, crate::proofs::ReadCode::period_short))]
pub fn by_period(fields: Fields) -> Result<Fields, ReadError>
    ensures { result ≡ within_period fields }
{
    let ends = fields.not_after;
    if fields.not_before.plus_at_most(PERIOD, ends) < ends {
        return Err(ReadError::Validity);
    }
    Ok(fields)
}

// Reads s as a descriptor.
#[tactic(auto, using(crate::proofs::ReadCode::read_formed, crate::proofs::ReadCode::read_unformed))]
pub fn read_descriptor(s: &[u8]) -> Result<Fields, ReadError>
    ensures { result ≡ reading_of (read_of s.now) }
{
    let Some(fields) = read_form(s) else {
        return Err(ReadError::Structure);
    };
    by_period(fields)
}
