// The arguments of a request: which are well formed, and the lease that the table has under the id.
ghost use Rattle.std.specs.Prelude.{◌≡◌};
ghost use Rattle.request_spec.specs.Request.{arguments_ok};
ghost use Rattle.request.specs.Code.{asked_of, checked_of};

use crate::{Asked, Environment, Refusal};
use descriptor_spec::sizes::{HIGHEST_MODE, ID_SIZE};
use lease::Lease;
use lease_spec::sizes::LATEST;
use revocation_spec::sizes::REVOCATION_SIZE;

// Whether the arguments but for the clock and the lease table are well formed.
#[tactic(auto, unfolding(request_spec::specs::Request::arguments_ok, steps::specs::Key::is_verdict))]
fn well_formed(asked: Asked, host: Environment) -> bool
    ensures { result ≡ arguments_ok (asked_of asked.entry host) }
{
    host.verdict <= 2
        && asked.mode <= HIGHEST_MODE
        && asked.id.len() == ID_SIZE
        && resource::is_fay(asked.fay)
        && resource::is_terminal(asked.terminal)
        && resource::is_resource(asked.resource)
        && asked.revoked.len() % REVOCATION_SIZE == 0
}

// The lease that the table has under the id, where the arguments are well formed.
#[tactic(auto, using(time::proofs::Laws::lt_is), unfolding(crate::specs::Code::checked_of, request_spec::specs::Request::well_formed, request_spec::specs::Request::arguments_ok, lease_spec::specs::Lease::clock_ok, lease_spec::specs::Table::find_in))]
pub(crate) fn check(asked: Asked, host: Environment) -> Result<Option<Lease>, Refusal>
    ensures { result ≡ checked_of (asked_of asked.entry host) }
{
    if !well_formed(asked, host) || LATEST < host.clock {
        return Err(Refusal::Malformed);
    }
    lease::find(asked.leases, asked.id).map_err(|_| Refusal::Malformed)
}
