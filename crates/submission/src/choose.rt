// The steps of a submission: which one refuses, or that the body is to be stored. Nothing is written here.
ghost use Rattle.std.specs.Prelude.{◌≡◌, ◌+◌, replicate};
ghost use Rattle.image_spec.specs.Edition2.{check_of};
ghost use Rattle.descriptor_spec.specs.Allowed.{id_size};
ghost use Rattle.image_spec.specs.Laws.{HeldFits, CheckFits};
ghost use Rattle.octets.specs.Bytes.{AreBytes};
ghost use Rattle.submission.specs.Code.{admitted, placed, chosen_read, chosen_unread, choice_of};

use crate::entering::read_entering;
use crate::{Environment, Refusal};
use descriptor::{Fields, ReadError};
use descriptor_spec::sizes::ID_SIZE;
use image::Contents;
use time::Seconds;

// Where a body is to be stored: after so many rows, whose bodies end at `end`; its id stands at `id` in it, and its modes are the mask.
#[derive(Clone, Copy)]
pub(crate) struct Store {
    pub(crate) rows: u64,
    pub(crate) end: usize,
    pub(crate) id: usize,
    pub(crate) mask: u64,
}

// How far ahead a descriptor may begin: one day.
const LONGEST_LEAD: Seconds = Seconds(86400);

// The beginning, the issuer, the key and the signature of a body that reads.
fn admit(not_before: Seconds, host: Environment) -> Result<(), Refusal>
    ensures { result ≡ admitted not_before.0 host.clock.0 host.verdict host.window }
{
    let latest = host.clock.plus_at_most(LONGEST_LEAD, not_before);
    if latest < not_before {
        return Err(Refusal::Validity);
    }
    if host.verdict == 2 {
        return Err(Refusal::UnknownIssuer);
    }
    if !steps::key_open(host.window, host.clock) {
        return Err(Refusal::KeyInvalid);
    }
    if host.verdict == 1 {
        return Err(Refusal::BadSignature);
    }
    Ok(())
}

// Where the body is to be stored; nowhere where it is held; or it is refused, where the id is held with other bytes.
fn place(
    image: &[u8],
    body: &[u8],
    contents: Contents,
    fields: Fields,
) -> Result<Option<Store>, Refusal>
    requires { HeldFits image.now contents.held }
    ensures { result ≡ placed image.now body.now contents fields }
{
    match contents.held {
        Some(held) => {
            let at = held.at;
            if octets::same_bytes(&image[at..at + held.len], body) {
                return Ok(None);
            }
            Err(Refusal::Duplicate)
        }
        None => Ok(Some(Store {
            rows: contents.rows,
            end: contents.end,
            id: fields.id,
            mask: fields.mask,
        })),
    }
}

// A body that reads and has ids of version 7, by the check of the image for its id.
fn choose_read(
    image: &[u8],
    body: &[u8],
    host: Environment,
    fields: Fields,
    found: Option<Contents>,
) -> Result<Option<Store>, Refusal>
    requires { CheckFits image.now found }
    ensures { result ≡ chosen_read image.now body.now host.clock.0 host.verdict host.window fields found }
{
    let Some(contents) = found else {
        return Err(Refusal::BadImage);
    };
    admit(fields.not_before, host)?;
    place(image, body, contents, fields)
}

// A body that is refused with 1 or 2: the image is looked at first.
fn choose_unread(image: &[u8], error: ReadError) -> Refusal
    ensures { result ≡ chosen_unread error (check_of image.now (replicate id_size 0)) }
{
    let none = [0u8; ID_SIZE];
    let Some(_) = image::check_latest(image, &none) else {
        return Refusal::BadImage;
    };
    match error {
        ReadError::Structure => Refusal::Structure,
        ReadError::Validity => Refusal::Validity,
    }
}

// What is to be done with the body.
pub(crate) fn choose(image: &[u8], body: &[u8], host: Environment) -> Result<Option<Store>, Refusal>
    ensures { (result ≡ choice_of image.now body.now host.clock.0 host.verdict host.window) × AreBytes image.now }
{
    if 2 < host.verdict {
        return Err(Refusal::Malformed);
    }
    match read_entering(body) {
        Ok(fields) => {
            let id = fields.id;
            let found = image::check_latest(image, &body[id..id + ID_SIZE]);
            choose_read(image, body, host, fields, found)
        }
        Err(error) => Err(choose_unread(image, error)),
    }
}
