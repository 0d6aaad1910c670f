// The lease steps of a request, which follow the signature's.
ghost use Rattle.std.specs.Prelude.{◌≡◌};
ghost use Rattle.request.specs.Code.{margin_by};

use crate::Refusal;
use lease::{Lease, LeaseState};
use time::{Margin, Milliseconds};

// The margin of what is granted under the lease, where every step before passes; 0 without a lease.
pub(crate) fn margin(lease: Option<Lease>, clock: Milliseconds) -> Result<Margin, Refusal>
    ensures { result ≡ margin_by lease clock.0 }
{
    let Some(lease) = lease else {
        return Ok(Margin(0));
    };
    match lease::state(lease, clock) {
        Some(LeaseState::Revoked) => Err(Refusal::LeaseRevoked),
        Some(LeaseState::Future) => Err(Refusal::LeaseFuture),
        Some(LeaseState::Active(margin)) => Ok(margin),
        Some(LeaseState::Stale(margin)) => Err(Refusal::LeaseStale(margin)),
        Some(LeaseState::Expired) => Err(Refusal::LeaseExpired),
        None => Err(Refusal::Malformed),
    }
}
