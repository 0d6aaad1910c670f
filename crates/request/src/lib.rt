// The functions that decide a request. What a decision is and what is promised of it is in `request_spec`.
#![tactic(auto)]

mod arguments;
mod decide;
mod examine;
mod leased;
mod search;

ghost use Rattle.std.specs.Prelude.{◌≡◌};
ghost use Rattle.request_spec.specs.Decision.{decision_of};
ghost use Rattle.request_spec.specs.After.{after_request};
ghost use Rattle.request.specs.Code.{asked_of};

pub use request_spec::{DecisionNumbers, Granted, Refusal};
use steps::Window;
use time::{Milliseconds, Seconds};

// What the host says beside the request itself: the clock and the session length; its verdict on the signature, and the window in which
// the key is valid. The verdict and the mode that is asked for are numbers, as the definitions' record `Request` has them: one that is too high
// is malformed with the other arguments.
#[derive(Clone, Copy)]
pub struct Environment {
    pub clock: Milliseconds,
    pub session: Seconds,
    pub verdict: u64,
    pub window: Window,
}

// What is asked: the descriptor's id, the fay, the terminal and the resource that ask, and the mode; and the bytes of the revocation list and of
// the lease table.
#[derive(Clone, Copy)]
pub struct Asked<'a> {
    pub id: &'a [u8],
    pub fay: &'a [u8],
    pub terminal: &'a [u8],
    pub resource: &'a [u8],
    pub mode: u64,
    pub revoked: &'a [u8],
    pub leases: &'a [u8],
}

// Decides a request for the descriptor with the id. Where it is granted the row's last-used moment becomes now, if that is later, and
// nothing else is written.
pub fn request(image: &mut [u8], asked: Asked, host: Environment) -> Result<Granted, Refusal>
    ensures { (result ≡ decision_of image.old (asked_of asked.entry host))
        × (image.new ≡ after_request image.old (asked_of asked.entry host)) }
{
    let (row, granted) = examine::examine(image, asked, host)?;
    image_write::touch(image, row, host.clock.to_seconds());
    Ok(granted)
}
