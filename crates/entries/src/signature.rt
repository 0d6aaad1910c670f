// Signatures.
ghost use Rattle.std.specs.Prelude.{◌≡◌, ◌+◌, ◌≤◌, length};
ghost use Rattle.octets.specs.Span.{span_of};
ghost use Rattle.entries_spec.specs.Keys.{k_algorithm};
ghost use Rattle.entries_spec.specs.Value.{keyed_at};
ghost use Rattle.entries_spec.specs.Reader.{value_fits, algorithm_at, signature_at};
ghost use Rattle.exact.specs.Reads.{got, guard};
ghost use Rattle.entries.specs.Code.{count_read, signature_of, signature_read, signed_at};

use crate::keys;
use crate::value::{Kind, after_key, keyed, text_at};
use cbor_item::Span;

// key_id, the algorithm's number and the signature's bytes.
#[derive(Clone, Copy)]
pub struct SignatureFields {
    pub key: Span,
    pub algorithm: u64,
    pub value: Span,
}

// An algorithm after its key: 0 for ed25519, 1 for ecdsa-p256-sha256, the numbers that the definition `algorithm_at` and include/cap.h have.
#[tactic(auto, using(crate::proofs::Laws::key_to, crate::proofs::Laws::key_not, crate::proofs::Laws::one_first, crate::proofs::Laws::one_next, crate::proofs::Laws::one_none), unfolding(entries_spec::specs::Reader::algorithm_at, entries_spec::specs::Keys::k_algorithm, entries_spec::specs::Keys::algorithms, entries_spec::specs::Keys::ed25519, entries_spec::specs::Keys::ecdsa_p256_sha256, exact::specs::Reads::guard))]
fn algorithm_at(s: &[u8], at: usize) -> Option<(u64, usize)>
    ensures { count_read result ≡ keyed_at s.now at k_algorithm (algorithm_at s.now) }
{
    let here = after_key(s, at, &keys::ALGORITHM)?;
    if let Some(next) = after_key(s, here, &keys::ED25519) {
        return Some((0, next));
    }
    let next = after_key(s, here, &keys::ECDSA_P256_SHA256)?;
    Some((1, next))
}

// A signature whose length fits its algorithm.
#[tactic(auto, unfolding(exact::specs::Reads::guard))]
fn if_fits(signature: SignatureFields, next: usize) -> Option<(SignatureFields, usize)>
    ensures { signature_read result ≡ guard (value_fits signature.algorithm signature.value.len) (got (signature_of signature) next) }
{
    if (signature.algorithm == 1) | (signature.value.len == 64) {
        return Some((signature, next));
    }
    None
}

// The signature after key_id, which is the part `key`.
#[tactic(auto, using(entries_spec::proofs::ValueBounds::string_ends), unfolding(crate::specs::Code::signed_at, entries_spec::specs::Keys::k_signature_value, exact::specs::Reads::bind))]
fn signed_at(s: &[u8], key: Span) -> Option<(SignatureFields, usize)>
    requires { key.start + key.len ≤ length s.now }
    ensures { signature_read result ≡ signed_at s.now (span_of key.start key.len) (key.start + key.len) }
{
    let (algorithm, next) = algorithm_at(s, key.start + key.len)?;
    let value = keyed(
        s,
        next,
        &keys::SIGNATURE_VALUE,
        Kind::Bytes { lo: 1, hi: 72 },
    )?;
    let signature = SignatureFields {
        key,
        algorithm,
        value,
    };
    if_fits(signature, value.start + value.len)
}

// The signature from the text of key_id on. What stands between key_id and a signature by ed25519 is one byte string.
#[tactic(auto, using(crate::proofs::Laws::key_to, entries_spec::proofs::ValueBounds::string_room, entries_spec::proofs::ValueBounds::key_fits, crate::proofs::SignatureCode::ed25519_found), unfolding(entries_spec::specs::Reader::signature_at, crate::specs::Code::signed_at, entries_spec::specs::Keys::k_algorithm, entries_spec::specs::Keys::ed25519, entries_spec::specs::Keys::k_signature_value, exact::specs::Reads::bind))]
pub fn signature_at(s: &[u8], at: usize) -> Option<(SignatureFields, usize)>
    ensures { signature_read result ≡ signature_at s.now at }
{
    let key = text_at(s, at, 1, 64)?;
    if let Some(start) = after_key(s, key.start + key.len, &keys::BEFORE_ED25519_VALUE) {
        if 64 <= s.len() - start {
            let signature = SignatureFields {
                key,
                algorithm: 0,
                value: Span { start, len: 64 },
            };
            return Some((signature, start + 64));
        }
    }
    signed_at(s, key)
}
