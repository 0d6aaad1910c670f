// The numbers of each answer. Each is a function and no `From`, since both of its types are of other crates.
ghost use Rattle.std.specs.Prelude.{◌≡◌, Err};
ghost use Rattle.cbor_item_spec.specs.Item as items;
ghost use Rattle.resource_spec.specs.Text as texts;
ghost use Rattle.descriptor.specs.Code.{grant_read};
ghost use Rattle.descriptor_spec.specs.Numbers as descriptors;
ghost use Rattle.image_spec.specs.Check as images;
ghost use Rattle.image_spec.specs.NewImage as creations;
ghost use Rattle.image_spec.specs.Upgrade as upgrades;
ghost use Rattle.submission_spec.specs.Submission as submissions;
ghost use Rattle.request_spec.specs.Decision as requests;
ghost use Rattle.narrowing_spec.specs.Narrow as narrowings;
ghost use Rattle.cap.specs.Numbers.{window_of};

use cbor_item::{Item, ItemNumbers};
use descriptor::{DescriptorNumbers, Fields, GrantFields, GrantNumbers, Part, ReadError};
use image::{FindError, StoredNumbers};
use image_write::{CreateError, UpgradeError, Written};
use narrowing::{NarrowingError, NarrowingNumbers};
use request::{DecisionNumbers, Granted, Refusal};
use resource::{Malformed, MatchingNumbers};
use steps::Window;
use time::{Margin, Seconds};

// The key's window.
pub(crate) fn window(from: u64, has_until: u64, until: u64) -> Window
    ensures { result ≡ window_of from has_until until }
{
    Window {
        from: Seconds(from),
        until: (has_until != 0).then_some(Seconds(until)),
    }
}

// An item's.
pub(crate) fn of_item(item: Option<(Item, usize)>) -> ItemNumbers
    ensures { result ≡ items.numbers_of item }
{
    match item {
        Some((Item::Unsigned(n), next)) => numbered(0, n, 0, 0, next),
        Some((Item::Bytes(span), next)) => numbered(2, span.len as u64, span.start, span.len, next),
        Some((Item::Text(span), next)) => numbered(3, span.len as u64, span.start, span.len, next),
        Some((Item::Array(n), next)) => numbered(4, n, 0, 0, next),
        Some((Item::Map(n), next)) => numbered(5, n, 0, 0, next),
        None => ItemNumbers {
            answer: 1,
            kind: 0,
            number: 0,
            content_at: 0,
            content_len: 0,
            next: 0,
        },
    }
}

// Those of an item that was read.
fn numbered(kind: u64, number: u64, at: usize, len: usize, next: usize) -> ItemNumbers
    ensures { result ≡ record { answer = 0; kind = kind; number = number; content_at = at; content_len = len; next = next } }
{
    ItemNumbers {
        answer: 0,
        kind,
        number,
        content_at: at as u64,
        content_len: len as u64,
        next: next as u64,
    }
}

// A descriptor's.
pub(crate) fn of_reading(reading: Result<Fields, ReadError>) -> DescriptorNumbers
    ensures { result ≡ descriptors.numbers_of reading }
{
    match reading {
        Ok(fields) => of_fields(fields),
        Err(ReadError::Structure) => no_descriptor(1),
        Err(ReadError::Validity) => no_descriptor(2),
    }
}

// Those of what was read.
fn of_fields(f: Fields) -> DescriptorNumbers
    ensures { result ≡ descriptors.field_numbers f }
{
    let payload = f.payload;
    let issued = f.issued_at;
    let begins = f.not_before;
    let ends = f.not_after;
    let issuer = f.issuer;
    let grantor = f.grantor;
    let key = f.key;
    let signature = f.signature;
    DescriptorNumbers {
        answer: 0,
        payload_at: payload.at as u64,
        payload_len: payload.len as u64,
        issued_at: issued.0,
        not_before: begins.0,
        not_after: ends.0,
        id_at: f.id as u64,
        issuer_at: issuer.at as u64,
        issuer_len: issuer.len as u64,
        grantor_at: grantor.at as u64,
        grantor_len: grantor.len as u64,
        fay_at: f.fay as u64,
        terminal_at: f.terminal as u64,
        grants: f.grants,
        metadata_at: f.metadata as u64,
        metadata_pairs: f.pairs,
        constraint_pairs: f.constraints,
        mask: f.mask,
        key_id_at: key.at as u64,
        key_id_len: key.len as u64,
        algorithm: f.algorithm,
        signature_at: signature.at as u64,
        signature_len: signature.len as u64,
    }
}

// Those of a refusal.
fn no_descriptor(answer: u64) -> DescriptorNumbers
    ensures { result ≡ descriptors.no_fields answer }
{
    DescriptorNumbers {
        answer,
        payload_at: 0,
        payload_len: 0,
        issued_at: 0,
        not_before: 0,
        not_after: 0,
        id_at: 0,
        issuer_at: 0,
        issuer_len: 0,
        grantor_at: 0,
        grantor_len: 0,
        fay_at: 0,
        terminal_at: 0,
        grants: 0,
        metadata_at: 0,
        metadata_pairs: 0,
        constraint_pairs: 0,
        mask: 0,
        key_id_at: 0,
        key_id_len: 0,
        algorithm: 0,
        signature_at: 0,
        signature_len: 0,
    }
}

// A grant's; zeros where there is none.
pub(crate) fn of_grant(grant: Option<(GrantFields, usize)>) -> GrantNumbers
    ensures { result ≡ descriptors.grant_numbers (grant_read grant) }
{
    match grant {
        Some((fields, _)) => GrantNumbers {
            found: 1,
            pattern_at: fields.pattern as u64,
            pattern_len: fields.len as u64,
            mask: fields.mask,
            modes_at: fields.modes as u64,
            constraints_at: fields.constraints as u64,
            constraint_pairs: fields.pairs,
        },
        None => GrantNumbers {
            found: 0,
            pattern_at: 0,
            pattern_len: 0,
            mask: 0,
            modes_at: 0,
            constraints_at: 0,
            constraint_pairs: 0,
        },
    }
}

// A matching's.
pub(crate) fn of_matching(answer: Result<Option<u64>, Malformed>) -> MatchingNumbers
    ensures { result ≡ texts.numbers_of answer }
{
    match answer {
        Ok(Some(names)) => matched(0, 1, names),
        Ok(None) => matched(0, 0, 0),
        Err(_) => matched(15, 0, 0),
    }
}

// The answer, 1 for yes, and the levels that were matched by equal names.
fn matched(answer: u64, yes: u64, names: u64) -> MatchingNumbers
    ensures { result ≡ record { answer = answer; yes = yes; names = names } }
{
    MatchingNumbers { answer, yes, names }
}

// A new image's.
pub(crate) fn of_creation(answer: Result<(), CreateError>) -> u64
    ensures { result ≡ creations.number_of answer }
{
    match answer {
        Ok(()) => 0,
        Err(CreateError::TooShort) => 17,
    }
}

// A lookup's.
pub(crate) fn of_finding(finding: Result<Part, FindError>) -> StoredNumbers
    ensures { result ≡ images.numbers_of finding }
{
    match finding {
        Ok(body) => stored(0, body.at, body.len),
        Err(FindError::Malformed) => stored(15, 0, 0),
        Err(FindError::BadImage) => stored(16, 0, 0),
        Err(FindError::NotFound) => stored(7, 0, 0),
    }
}

// The answer, and where the body lies.
fn stored(answer: u64, at: usize, len: usize) -> StoredNumbers
    ensures { result ≡ record { answer = answer; body_at = at; body_len = len } }
{
    StoredNumbers {
        answer,
        body_at: at as u64,
        body_len: len as u64,
    }
}

// An upgrade's.
pub(crate) fn of_upgrade(upgrade: Result<usize, UpgradeError>) -> Written
    ensures { result ≡ upgrades.written_of upgrade }
{
    match upgrade {
        Ok(len) => written(0, len),
        Err(UpgradeError::BadImage) => written(16, 0),
        Err(UpgradeError::TooShort) => written(17, 0),
    }
}

// The answer, and how many bytes were written.
fn written(answer: u64, len: usize) -> Written
    ensures { result ≡ record { answer = answer; len = len } }
{
    Written {
        answer,
        len: len as u64,
    }
}

// A submission's.
pub(crate) fn of_submission(answer: Result<(), submission::Refusal>) -> u64
    ensures { result ≡ submissions.number_of answer }
{
    let Err(refusal) = answer else {
        return 0;
    };
    match refusal {
        submission::Refusal::Malformed => 15,
        submission::Refusal::BadImage => 16,
        submission::Refusal::Structure => 1,
        submission::Refusal::Validity => 2,
        submission::Refusal::UnknownIssuer => 3,
        submission::Refusal::KeyInvalid => 14,
        submission::Refusal::BadSignature => 4,
        submission::Refusal::Duplicate => 5,
        submission::Refusal::Full => 6,
    }
}

// A request's.
pub(crate) fn of_decision(decision: Result<Granted, Refusal>) -> DecisionNumbers
    ensures { result ≡ requests.numbers_of decision }
{
    match decision {
        Ok(granted) => of_granted(granted),
        Err(refusal) => of_refusal(refusal),
    }
}

// Those of a granted request.
fn of_granted(granted: Granted) -> DecisionNumbers
    ensures { result ≡ requests.granted_numbers granted.grant granted.mask granted.end granted.margin }
{
    let end = granted.end;
    let margin = granted.margin;
    DecisionNumbers {
        answer: 0,
        grant: granted.grant,
        mask: granted.mask,
        session_end: end.0,
        margin: margin.0,
    }
}

// Those of a refusal.
fn of_refusal(refusal: Refusal) -> DecisionNumbers
    ensures { result ≡ requests.numbers_of (Err refusal) }
{
    match refusal {
        Refusal::Malformed => refused(15),
        Refusal::BadImage => refused(16),
        Refusal::NotFound => refused(7),
        Refusal::Revoked => refused(8),
        Refusal::NotYetValid => refused(9),
        Refusal::Expired => refused(10),
        Refusal::SubjectMismatch => refused(11),
        Refusal::TerminalMismatch => refused(12),
        Refusal::Insufficient => refused(13),
        Refusal::KeyInvalid => refused(14),
        Refusal::BadSignature => refused(4),
        Refusal::LeaseRevoked => refused(26),
        Refusal::LeaseFuture => refused(23),
        Refusal::LeaseStale(margin) => stale(margin),
        Refusal::LeaseExpired => refused(25),
    }
}

// Those of a refused request.
fn refused(answer: u64) -> DecisionNumbers
    ensures { result ≡ requests.refusal answer }
{
    DecisionNumbers {
        answer,
        grant: 0,
        mask: 0,
        session_end: 0,
        margin: 0,
    }
}

// Those of a request that is refused for a stale lease.
fn stale(margin: Margin) -> DecisionNumbers
    ensures { result ≡ requests.stale_with margin }
{
    DecisionNumbers {
        answer: 24,
        grant: 0,
        mask: 0,
        session_end: 0,
        margin: margin.0,
    }
}

// A narrowing's.
pub(crate) fn of_narrowing(answer: Result<(), NarrowingError>) -> NarrowingNumbers
    ensures { result ≡ narrowings.numbers_of answer }
{
    match answer {
        Ok(()) => narrowed(0),
        Err(NarrowingError::NoParent) => narrowed(21),
        Err(NarrowingError::Structure) => narrowed(1),
        Err(NarrowingError::Validity) => narrowed(2),
        Err(NarrowingError::Constrained) => narrowed(19),
        Err(NarrowingError::Period) => narrowed(18),
        Err(
            NarrowingError::NotCovered {
                grant,
                mode,
                levels,
            },
        ) => NarrowingNumbers {
            answer: 20,
            grant,
            mode,
            levels,
        },
    }
}

// Those of an answer other than 20.
fn narrowed(answer: u64) -> NarrowingNumbers
    ensures { result ≡ narrowings.plain answer }
{
    NarrowingNumbers {
        answer,
        grant: 0,
        mode: 0,
        levels: 0,
    }
}
