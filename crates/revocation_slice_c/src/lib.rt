// The search in a slice of rows for C: the function of `revocation_slice` that has its name, with its promise.
#![tactic(auto)]

ghost use Rattle.std.specs.Prelude.{◌≡◌};
ghost use Rattle.revocation_spec.specs.Revocation.{is_revoked};

use revocation_spec::Revocation;

// Whether some row revokes the id.
#[unsafe(no_mangle)]
pub extern "C" fn is_revoked_in(rows: &[Revocation], id: &[u8], clock: u64) -> bool
    ensures { result ≡ is_revoked rows.now id.now clock }
{
    revocation_slice::is_revoked_in(rows, id, clock)
}
