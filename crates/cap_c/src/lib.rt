// The byte interface for C: each export is the function of `cap` that has its name, with its promises; the header is include/cap.h. None has
// a requirement. A crate is a library or a static library, so that functions and clauses stand in both.
#![tactic(auto)]

ghost use Rattle.std.specs.Prelude.{◌≡◌};
ghost use Rattle.octets.specs.Bytes.{AreBytes};
ghost use Rattle.cbor_item_spec.specs.Item as items;
ghost use Rattle.resource_spec.specs.Text as texts;
ghost use Rattle.descriptor_spec.specs.Reader.{read_of};
ghost use Rattle.descriptor_spec.specs.Code.{reading_of};
ghost use Rattle.descriptor_spec.specs.Numbers as descriptors;
ghost use Rattle.grant_reader.specs.Code.{nth_of};
ghost use Rattle.image_spec.specs.Check as images;
ghost use Rattle.image_spec.specs.NewImage as creations;
ghost use Rattle.image_spec.specs.Readable as readable;
ghost use Rattle.image_spec.specs.Edition2 as edition2;
ghost use Rattle.image_spec.specs.Upgrade as upgrades;
ghost use Rattle.submission_spec.specs.Submission as submissions;
ghost use Rattle.time.specs.Time.{seconds, milliseconds};
ghost use Rattle.request_spec.specs.Request.{request_of};
ghost use Rattle.request_spec.specs.Decision as requests;
ghost use Rattle.request_spec.specs.After.{after_request};
ghost use Rattle.narrowing_spec.specs.Narrow as narrowings;
ghost use Rattle.cap.specs.Numbers.{window_of};

use cbor_item_spec::ItemNumbers;
use descriptor_spec::{DescriptorNumbers, GrantNumbers};
use image_spec::{StoredNumbers, Written};
use narrowing_spec::NarrowingNumbers;
use request_spec::DecisionNumbers;
use resource_spec::MatchingNumbers;

// The item at the place.
#[unsafe(no_mangle)]
pub extern "C" fn cap_item_read(bytes: &[u8], place: u64) -> ItemNumbers
    ensures answer { result ≡ items.numbers_of (items.item_at bytes.now place) }
    ensures lent { AreBytes bytes.now }
{
    cap::cap_item_read(bytes, place)
}

// Reads a descriptor.
#[unsafe(no_mangle)]
pub extern "C" fn cap_descriptor_read(bytes: &[u8]) -> DescriptorNumbers
    ensures answer { result ≡ descriptors.numbers_of (reading_of (read_of bytes.now)) }
    ensures lent { AreBytes bytes.now }
{
    cap::cap_descriptor_read(bytes)
}

// The grant with the index, counted from 0.
#[unsafe(no_mangle)]
pub extern "C" fn cap_grant_at(bytes: &[u8], index: u64) -> GrantNumbers
    ensures answer { result ≡ descriptors.grant_numbers (nth_of bytes.now index) }
    ensures lent { AreBytes bytes.now }
{
    cap::cap_grant_at(bytes, index)
}

// Whether the pattern matches the resource id.
#[unsafe(no_mangle)]
pub extern "C" fn cap_match(pattern: &[u8], resource: &[u8]) -> MatchingNumbers
    ensures answer { result ≡ texts.numbers_of (texts.matching pattern.now resource.now) }
    ensures lent { AreBytes pattern.now × AreBytes resource.now }
{
    cap::cap_match(pattern, resource)
}

// Makes a new image.
#[unsafe(no_mangle)]
pub extern "C" fn cap_image_new(image: &mut [u8]) -> u64
    ensures answer { (result ≡ creations.number_of (creations.creation_of image.old))
        × (image.new ≡ edition2.after_new image.old) }
    ensures lent { AreBytes image.old }
{
    cap::cap_image_new(image)
}

// Looks for the body with the id.
#[unsafe(no_mangle)]
pub extern "C" fn cap_image_find(image: &[u8], id: &[u8]) -> StoredNumbers
    ensures answer { result ≡ images.numbers_of (readable.find_of image.now id.now) }
    ensures lent { AreBytes image.now × AreBytes id.now }
{
    cap::cap_image_find(image, id)
}

// Turns an image of edition 1 into one of edition 2.
#[unsafe(no_mangle)]
pub extern "C" fn cap_image_upgrade(old: &[u8], image: &mut [u8]) -> Written
    ensures answer { (result ≡ upgrades.written_of (upgrades.upgrade_of old.now image.old))
        × (image.new ≡ upgrades.after_upgrade old.now image.old) }
    ensures lent { AreBytes old.now × AreBytes image.old }
{
    cap::cap_image_upgrade(old, image)
}

// Submits a descriptor to the image.
#[unsafe(no_mangle)]
pub extern "C" fn cap_submit(
    image: &mut [u8],
    descriptor: &[u8],
    clock: u64,
    verdict: u64,
    valid_from: u64,
    has_valid_until: u64,
    valid_until: u64,
) -> u64
    ensures answer { (result ≡ submissions.number_of (submissions.submitted image.old descriptor.now clock verdict
        (window_of valid_from has_valid_until valid_until)))
        × (image.new ≡ submissions.after_of image.old descriptor.now clock verdict
        (window_of valid_from has_valid_until valid_until)) }
    ensures lent { AreBytes image.old × AreBytes descriptor.now }
{
    cap::cap_submit(
        image,
        descriptor,
        clock,
        verdict,
        valid_from,
        has_valid_until,
        valid_until,
    )
}

// Decides a request; a grant raises the last-used moment of its row.
#[unsafe(no_mangle)]
pub extern "C" fn cap_request(
    image: &mut [u8],
    id: &[u8],
    fay: &[u8],
    terminal: &[u8],
    resource: &[u8],
    mode: u64,
    now_ms: u64,
    session_length: u64,
    revoked: &[u8],
    leases: &[u8],
    verdict: u64,
    valid_from: u64,
    has_valid_until: u64,
    valid_until: u64,
) -> DecisionNumbers
    ensures answer { (result ≡ requests.numbers_of (requests.decision_of image.old
        (request_of id.now fay.now terminal.now resource.now mode
        (milliseconds now_ms) (seconds session_length) revoked.now leases.now verdict
        (window_of valid_from has_valid_until valid_until))))
        × (image.new ≡ after_request image.old
        (request_of id.now fay.now terminal.now resource.now mode
        (milliseconds now_ms) (seconds session_length) revoked.now leases.now verdict
        (window_of valid_from has_valid_until valid_until))) }
    ensures lent { AreBytes image.old × AreBytes id.now × AreBytes fay.now
        × AreBytes terminal.now × AreBytes resource.now × AreBytes revoked.now
        × AreBytes leases.now }
{
    cap::cap_request(
        image,
        id,
        fay,
        terminal,
        resource,
        mode,
        now_ms,
        session_length,
        revoked,
        leases,
        verdict,
        valid_from,
        has_valid_until,
        valid_until,
    )
}

// Narrows the child under the parent.
#[unsafe(no_mangle)]
pub extern "C" fn cap_narrow(parent: &[u8], child: &[u8]) -> NarrowingNumbers
    ensures answer { result ≡ narrowings.numbers_of (narrowings.narrow parent.now child.now) }
    ensures lent { AreBytes parent.now × AreBytes child.now }
{
    cap::cap_narrow(parent, child)
}
