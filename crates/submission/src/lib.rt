// The functions that take a submission. What a submission is and what is promised of it is in `submission_spec`.
#![tactic(auto)]

mod choose;
mod entering;

ghost use Rattle.std.specs.Prelude.{◌≡◌};
ghost use Rattle.submission_spec.specs.Submission.{submitted, after_of};
ghost use Rattle.submission.specs.Code.{stored_of, after_store, stored_after_removal, after_removal};

use choose::Store;
use steps::Window;
pub use submission_spec::Refusal;
use time::Seconds;

// What the host says beside the body: the clock, its verdict on the signature, and the window in which the key is valid.
#[derive(Clone, Copy)]
pub struct Environment {
    pub clock: Seconds,
    pub verdict: u64,
    pub window: Window,
}

// Submits the descriptor in `body` to the image. A refusal changes no byte of the image, nor does a repeat of what is held.
pub fn submit(image: &mut [u8], body: &[u8], host: Environment) -> Result<(), Refusal>
    ensures { (result ≡ submitted image.old body.now host.clock.0 host.verdict host.window)
        × (image.new ≡ after_of image.old body.now host.clock.0 host.verdict host.window) }
{
    match choose::choose(image, body, host)? {
        Some(place) => store(image, body, place, host.clock),
        None => Ok(()),
    }
}

// Stores the body; only where it does not fit so do expired rows go.
fn store(image: &mut [u8], body: &[u8], place: Store, clock: Seconds) -> Result<(), Refusal>
    ensures { (result ≡ stored_of image.old body.now place clock.0)
        × (image.new ≡ after_store image.old body.now place clock.0) }
{
    match image_write::add_body(
        image, place.rows, place.end, body, place.id, place.mask, clock,
    ) {
        Ok(()) => Ok(()),
        Err(_) => store_after_removal(image, body, place, clock),
    }
}

// Removes expired rows so that the body fits, and stores it after those that stay.
fn store_after_removal(
    image: &mut [u8],
    body: &[u8],
    place: Store,
    clock: Seconds,
) -> Result<(), Refusal>
    ensures { (result ≡ stored_after_removal image.old body.now place clock.0)
        × (image.new ≡ after_removal image.old body.now place clock.0) }
{
    let Some(room) = removal::make_room(image, place.rows, place.end, clock, body.len()) else {
        return Err(Refusal::Full);
    };
    match image_write::add_body(
        image, room.rows, room.end, body, place.id, place.mask, clock,
    ) {
        Ok(()) => Ok(()),
        Err(_) => Err(Refusal::Full),
    }
}
