// The steps of a request, one after the other.
ghost use Rattle.std.specs.Prelude.{◌≡◌, true, ◌+◌, ◌≤◌, length};
ghost use Rattle.resource_spec.specs.Identifier.{terminal_size};
ghost use Rattle.resource_spec.specs.Text.{resource_ok};
ghost use Rattle.descriptor_spec.specs.Modes.{highest_mode};
ghost use Rattle.lease_spec.specs.Lease.{clock_ok};
ghost use Rattle.request_spec.specs.Decision.{matched_on, decided_on};
ghost use Rattle.request.specs.Code.{asked_of, BodyFits, LeaseFits, stage_of, applicability_of, signed_by};

use crate::{Asked, Environment, Granted, Refusal};
use descriptor::Fields;
use lease::Lease;
use octets::same_bytes;
use request_spec::Picked;
use resource_spec::sizes::{FAY_SIZE, LEVELS_PLACE, TERMINAL_SIZE};
use time::Seconds;

// The grant of the body that is picked; none where the resource is another terminal's.
#[tactic(auto, using(crate::proofs::DecideCode::match_laws))]
fn match_grant(body: &[u8], fields: Fields, resource: &[u8], mode: u64) -> Option<Picked>
    requires { (resource_ok resource.now ≡ true) × (mode ≤ highest_mode) × (fields.terminal + terminal_size ≤ length body.now) }
    ensures { result ≡ matched_on body.now fields resource.now mode }
{
    let t = fields.terminal;
    if !same_bytes(&body[t..t + TERMINAL_SIZE], &resource[..TERMINAL_SIZE]) {
        return None;
    }
    crate::search::pick_grant(
        body,
        fields.first,
        fields.grants,
        mode,
        &resource[LEVELS_PLACE..],
    )
}

// The steps 9 to 13 on a body of which the fields were read: the grant that is picked.
#[tactic(auto, using(crate::proofs::DecideCode::descriptor_laws), unfolding(crate::specs::Code::applicability_of, request_spec::specs::Decision::descriptor_steps, steps::specs::Order::in_order, steps::specs::Order::or_else))]
fn check_descriptor(
    body: &[u8],
    fields: Fields,
    asked: Asked,
    clock: Seconds,
) -> Result<Picked, Refusal>
    requires { (resource_ok asked.resource.now ≡ true) × (asked.mode ≤ highest_mode) × BodyFits body.now fields }
    ensures { stage_of result ≡ applicability_of body.now fields asked.entry.fay.now asked.entry.terminal.now asked.entry.resource.now
        asked.entry.mode clock.0 }
{
    if clock < fields.not_before {
        return Err(Refusal::NotYetValid);
    }
    if fields.not_after <= clock {
        return Err(Refusal::Expired);
    }
    let f = fields.fay;
    if !same_bytes(&body[f..f + FAY_SIZE], asked.fay) {
        return Err(Refusal::SubjectMismatch);
    }
    let t = fields.terminal;
    if !same_bytes(&body[t..t + TERMINAL_SIZE], asked.terminal) {
        return Err(Refusal::TerminalMismatch);
    }
    match_grant(body, fields, asked.resource, asked.mode).ok_or(Refusal::Insufficient)
}

// The steps 14 and 4, where a grant serves, and then those of the lease.
#[tactic(auto, unfolding(crate::specs::Code::signed_by, request_spec::specs::Decision::key_steps, steps::specs::Key::is_that, steps::specs::Order::in_order, steps::specs::Order::or_else))]
fn signed(
    picked: Picked,
    not_after: Seconds,
    lease: Option<Lease>,
    host: Environment,
) -> Result<Granted, Refusal>
    ensures { result ≡ signed_by picked not_after lease host }
{
    let clock = host.clock.to_seconds();
    if host.verdict == 2 || !steps::key_open(host.window, clock) {
        return Err(Refusal::KeyInvalid);
    }
    if host.verdict == 1 {
        return Err(Refusal::BadSignature);
    }
    let margin = crate::leased::margin(lease, host.clock)?;
    Ok(Granted {
        grant: picked.grant,
        mask: picked.mask,
        end: clock.plus_at_most(host.session, not_after),
        margin,
    })
}

// The steps on a body that was found and of which the fields were read. The lease table was looked at before: what it has under the id is
// `lease`.
pub(crate) fn on_body(
    body: &[u8],
    fields: Fields,
    asked: Asked,
    lease: Option<Lease>,
    host: Environment,
) -> Result<Granted, Refusal>
    requires { (resource_ok asked.resource.now ≡ true) × (asked.mode ≤ highest_mode) × BodyFits body.now fields
        × LeaseFits lease × (clock_ok host.clock.0 ≡ true) }
    ensures { result ≡ decided_on (asked_of asked.entry host) lease body.now fields }
{
    let clock = host.clock.to_seconds();
    if revocation::is_revoked(asked.revoked, asked.id, clock) {
        return Err(Refusal::Revoked);
    }
    let picked = check_descriptor(body, fields, asked, clock)?;
    signed(picked, fields.not_after, lease, host)
}
