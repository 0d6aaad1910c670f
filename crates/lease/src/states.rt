// The state of a lease. Within the limits no sum is more than 2^54, so that each is exact. No function is a method, since `Lease` is
// declared in `lease_spec`, which has none.
ghost use Rattle.std.specs.Prelude.{◌≡◌, true};
ghost use Rattle.time.specs.Time.{milliseconds};
ghost use Rattle.lease_spec.specs.Lease.{lease_ok, clock_ok, last_active, last_stale, is_future, state_within, state_of};

use crate::{Lease, LeaseState};
use lease_spec::sizes::{LATEST, LENGTH_END, LONGEST_SKEW};
use time::Milliseconds;

// Whether the numbers of the lease are within the limits.
#[tactic(auto, using(time::proofs::Laws::lt_is, time::proofs::Laws::le_is), unfolding(lease_spec::specs::Lease::lease_ok))]
pub(crate) fn is_within(lease: Lease) -> bool
    ensures { result ≡ lease_ok lease }
{
    lease.last_sync <= LATEST
        && lease.ttl < LENGTH_END
        && lease.grace < LENGTH_END
        && lease.skew <= LONGEST_SKEW
        && lease.tolerance <= LONGEST_SKEW
}

// Whether the last sync lies too far after the clock.
#[tactic(auto, using(time::proofs::Laws::lt_is), unfolding(lease_spec::specs::Lease::is_future, lease_spec::specs::Lease::lease_ok, lease_spec::specs::Lease::clock_ok, time::specs::Time::sum_held))]
fn is_future(lease: Lease, clock: Milliseconds) -> bool
    requires { (lease_ok lease ≡ true) × (clock_ok clock.0 ≡ true) }
    ensures { result ≡ is_future lease clock.0 }
{
    clock.plus(lease.skew) < lease.last_sync
}

// The last active millisecond.
#[tactic(auto, unfolding(lease_spec::specs::Lease::last_active, lease_spec::specs::Lease::lease_ok, time::specs::Time::sum_held, time::specs::Time::in_milliseconds))]
fn last_active(lease: Lease) -> Milliseconds
    requires { lease_ok lease ≡ true }
    ensures { result ≡ milliseconds (last_active lease) }
{
    lease
        .last_sync
        .plus(lease.ttl.to_milliseconds())
        .plus(lease.tolerance)
}

// The last stale millisecond.
#[tactic(auto, unfolding(lease_spec::specs::Lease::last_stale, lease_spec::specs::Lease::lease_ok, time::specs::Time::sum_held, time::specs::Time::in_milliseconds))]
fn last_stale(lease: Lease) -> Milliseconds
    requires { lease_ok lease ≡ true }
    ensures { result ≡ milliseconds (last_stale lease) }
{
    lease
        .last_sync
        .plus(lease.ttl.to_milliseconds())
        .plus(lease.grace.to_milliseconds())
        .plus(lease.tolerance)
}

// The state of a lease within the limits, at a clock within its limit.
#[tactic(auto, using(time::proofs::Laws::le_is, crate::proofs::StateCode::margin_is), unfolding(lease_spec::specs::Lease::state_within))]
fn state_within(lease: Lease, clock: Milliseconds) -> LeaseState
    requires { (lease_ok lease ≡ true) × (clock_ok clock.0 ≡ true) }
    ensures { result ≡ state_within lease clock.0 }
{
    if lease.revoked {
        return LeaseState::Revoked;
    }
    if is_future(lease, clock) {
        return LeaseState::Future;
    }
    let end = last_active(lease);
    if clock <= end {
        return LeaseState::Active(clock.until(end));
    }
    if clock <= last_stale(lease) {
        return LeaseState::Stale(clock.until(end));
    }
    LeaseState::Expired
}

// The state of a lease at the clock, with the margin where it is active or stale; none where the lease or the clock is outside the limits.
#[tactic(auto, using(time::proofs::Laws::lt_is), unfolding(lease_spec::specs::Lease::state_of, lease_spec::specs::Lease::clock_ok))]
pub fn state(lease: Lease, clock: Milliseconds) -> Option<LeaseState>
    ensures { result ≡ state_of lease clock.0 }
{
    if !is_within(lease) || LATEST < clock {
        return None;
    }
    Some(state_within(lease, clock))
}
