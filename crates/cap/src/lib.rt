// The byte interface: what a host in C or Rust calls, by the exports of cap_c. Each function hands on to a lower crate and turns its answer
// into numbers; names, order and fields are those of include/cap.h. None has a requirement.
#![tactic(auto)]

mod numbers;

ghost use Rattle.std.specs.Prelude.{◌≡◌};
ghost use Rattle.octets.specs.Bytes.{AreBytes};
ghost use Rattle.cbor_item_spec.specs.Item as items;
ghost use Rattle.resource_spec.specs.Text as texts;
ghost use Rattle.descriptor_spec.specs.Reader.{read_of};
ghost use Rattle.descriptor_spec.specs.Code.{reading_of};
ghost use Rattle.descriptor_spec.specs.Numbers as descriptors;
ghost use Rattle.grant_reader.specs.Code.{nth_of};
ghost use Rattle.image_spec.specs.Check as images;
ghost use Rattle.image_spec.specs.NewImage as creations;
ghost use Rattle.image_spec.specs.Readable as readable;
ghost use Rattle.image_spec.specs.Edition2 as edition2;
ghost use Rattle.image_spec.specs.Upgrade as upgrades;
ghost use Rattle.submission_spec.specs.Submission as submissions;
ghost use Rattle.time.specs.Time.{seconds, milliseconds};
ghost use Rattle.request_spec.specs.Request.{request_of};
ghost use Rattle.request_spec.specs.Decision as requests;
ghost use Rattle.request_spec.specs.After.{after_request};
ghost use Rattle.narrowing_spec.specs.Narrow as narrowings;
ghost use Rattle.cap.specs.Numbers.{window_of};

use cbor_item::ItemNumbers;
use descriptor::{DescriptorNumbers, GrantNumbers};
use image::StoredNumbers;
use image_write::Written;
use narrowing::NarrowingNumbers;
use request::{Asked, DecisionNumbers, Environment};
use resource::MatchingNumbers;
use time::{Milliseconds, Seconds};

// The item at the place.
#[tactic(auto, using(octets::proofs::BytesLaws::are_bytes))]
pub fn cap_item_read(bytes: &[u8], place: u64) -> ItemNumbers
    ensures answer { result ≡ items.numbers_of (items.item_at bytes.now place) }
    ensures lent { AreBytes bytes.now }
{
    numbers::of_item(cbor_item::read_item(bytes, place as usize))
}

// Reads a descriptor.
#[tactic(auto, using(octets::proofs::BytesLaws::are_bytes))]
pub fn cap_descriptor_read(bytes: &[u8]) -> DescriptorNumbers
    ensures answer { result ≡ descriptors.numbers_of (reading_of (read_of bytes.now)) }
    ensures lent { AreBytes bytes.now }
{
    numbers::of_reading(descriptor::read_descriptor(bytes))
}

// The grant with the index, counted from 0.
#[tactic(auto, using(octets::proofs::BytesLaws::are_bytes))]
pub fn cap_grant_at(bytes: &[u8], index: u64) -> GrantNumbers
    ensures answer { result ≡ descriptors.grant_numbers (nth_of bytes.now index) }
    ensures lent { AreBytes bytes.now }
{
    numbers::of_grant(grant_reader::nth(bytes, index))
}

// Whether the pattern matches the resource id.
#[tactic(auto, using(octets::proofs::BytesLaws::are_bytes))]
pub fn cap_match(pattern: &[u8], resource: &[u8]) -> MatchingNumbers
    ensures answer { result ≡ texts.numbers_of (texts.matching pattern.now resource.now) }
    ensures lent { AreBytes pattern.now × AreBytes resource.now }
{
    numbers::of_matching(resource::match_texts(pattern, resource))
}

// Makes a new image.
#[tactic(auto, using(octets::proofs::BytesLaws::are_bytes))]
pub fn cap_image_new(image: &mut [u8]) -> u64
    ensures answer { (result ≡ creations.number_of (creations.creation_of image.old))
        × (image.new ≡ edition2.after_new image.old) }
    ensures lent { AreBytes image.old }
{
    numbers::of_creation(image_write::new_image(image))
}

// Looks for the body with the id.
#[tactic(auto, using(octets::proofs::BytesLaws::are_bytes))]
pub fn cap_image_find(image: &[u8], id: &[u8]) -> StoredNumbers
    ensures answer { result ≡ images.numbers_of (readable.find_of image.now id.now) }
    ensures lent { AreBytes image.now × AreBytes id.now }
{
    numbers::of_finding(image::find(image, id))
}

// Turns an image of edition 1 into one of edition 2.
#[tactic(auto, using(octets::proofs::BytesLaws::are_bytes))]
pub fn cap_image_upgrade(old: &[u8], image: &mut [u8]) -> Written
    ensures answer { (result ≡ upgrades.written_of (upgrades.upgrade_of old.now image.old))
        × (image.new ≡ upgrades.after_upgrade old.now image.old) }
    ensures lent { AreBytes old.now × AreBytes image.old }
{
    numbers::of_upgrade(image_write::upgrade(old, image))
}

// Submits a descriptor to the image.
#[tactic(auto, using(octets::proofs::BytesLaws::are_bytes))]
pub fn cap_submit(
    image: &mut [u8],
    descriptor: &[u8],
    clock: u64,
    verdict: u64,
    valid_from: u64,
    has_valid_until: u64,
    valid_until: u64,
) -> u64
    ensures answer { (result ≡ submissions.number_of (submissions.submitted image.old descriptor.now clock verdict
        (window_of valid_from has_valid_until valid_until)))
        × (image.new ≡ submissions.after_of image.old descriptor.now clock verdict
        (window_of valid_from has_valid_until valid_until)) }
    ensures lent { AreBytes image.old × AreBytes descriptor.now }
{
    let host = submission::Environment {
        clock: Seconds(clock),
        verdict,
        window: numbers::window(valid_from, has_valid_until, valid_until),
    };
    numbers::of_submission(submission::submit(image, descriptor, host))
}

// Decides a request; a grant raises the last-used moment of its row.
#[tactic(auto, using(octets::proofs::BytesLaws::are_bytes))]
pub fn cap_request(
    image: &mut [u8],
    id: &[u8],
    fay: &[u8],
    terminal: &[u8],
    resource: &[u8],
    mode: u64,
    now_ms: u64,
    session_length: u64,
    revoked: &[u8],
    leases: &[u8],
    verdict: u64,
    valid_from: u64,
    has_valid_until: u64,
    valid_until: u64,
) -> DecisionNumbers
    ensures answer { (result ≡ requests.numbers_of (requests.decision_of image.old
        (request_of id.now fay.now terminal.now resource.now mode
        (milliseconds now_ms) (seconds session_length) revoked.now leases.now verdict
        (window_of valid_from has_valid_until valid_until))))
        × (image.new ≡ after_request image.old
        (request_of id.now fay.now terminal.now resource.now mode
        (milliseconds now_ms) (seconds session_length) revoked.now leases.now verdict
        (window_of valid_from has_valid_until valid_until))) }
    ensures lent { AreBytes image.old × AreBytes id.now × AreBytes fay.now
        × AreBytes terminal.now × AreBytes resource.now × AreBytes revoked.now
        × AreBytes leases.now }
{
    let host = Environment {
        clock: Milliseconds(now_ms),
        session: Seconds(session_length),
        verdict,
        window: numbers::window(valid_from, has_valid_until, valid_until),
    };
    let asked = Asked {
        id,
        fay,
        terminal,
        resource,
        mode,
        revoked,
        leases,
    };
    numbers::of_decision(request::request(image, asked, host))
}

// Narrows the child under the parent.
#[tactic(auto, using(octets::proofs::BytesLaws::are_bytes))]
pub fn cap_narrow(parent: &[u8], child: &[u8]) -> NarrowingNumbers
    ensures answer { result ≡ narrowings.numbers_of (narrowings.narrow parent.now child.now) }
    ensures lent { AreBytes parent.now × AreBytes child.now }
{
    numbers::of_narrowing(narrowing::narrow(parent, child))
}
