// Whether a descriptor's id is revoked, by a lent slice of rows: document 01's form for the list of document 02 §2. What that means is in
// `revocation_spec`. `revocation` has the same search over bytes: each is one line over its own form of rows, and a trait of rows longer.
#![tactic(auto)]

ghost use Rattle.std.specs.Prelude.{◌≡◌};
ghost use Rattle.revocation_spec.specs.Revocation.{revokes, is_revoked};

use octets::same_bytes;
use revocation_spec::Revocation;
use time::Seconds;

// Whether a row revokes the id.
#[tactic(auto, using(time::proofs::Laws::le_is), unfolding(revocation_spec::specs::Revocation::revokes))]
fn row_revokes(row: &Revocation, id: &[u8], clock: Seconds) -> bool
    ensures { result ≡ revokes row.now id.now clock.0 }
{
    same_bytes(&row.id, id) && Seconds(row.moment) <= clock
}

// Whether some row revokes the id.
pub fn is_revoked_in(rows: &[Revocation], id: &[u8], clock: u64) -> bool
    ensures { result ≡ is_revoked rows.now id.now clock }
{
    rows.iter().any(|row| row_revokes(row, id, Seconds(clock)))
}
