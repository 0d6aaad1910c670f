// Whether a descriptor's id is revoked, by the bytes of a revocation list. What that means is in `revocation_spec`.
#![tactic(auto)]

ghost use Rattle.std.specs.Prelude.{◌≡◌, ◌≤◌, length};
ghost use Rattle.revocation_spec.specs.Revocation.{revocation_size, revokes, is_revoked, revocation_at, revocations_of};

use descriptor_spec::sizes::ID_SIZE;
use octets::{number_at, same_bytes};
use revocation_spec::sizes::{MOMENT_WIDTH, REVOCATION_SIZE};
use time::Seconds;

// Whether the row in the bytes revokes the id.
#[tactic(auto, using(time::proofs::Laws::le_is, octets::proofs::NumberLaws::number_in_lem), unfolding(revocation_spec::specs::Revocation::revokes, revocation_spec::specs::Revocation::revocation_at, octets::specs::Bytes::part))]
fn row_revokes(row: &[u8], id: &[u8], clock: Seconds) -> bool
    requires { revocation_size ≤ length row.now }
    ensures { result ≡ revokes (revocation_at row.now 0) id.now clock.0 }
{
    same_bytes(&row[..ID_SIZE], id) && Seconds(number_at(row, ID_SIZE, MOMENT_WIDTH)) <= clock
}

// Whether some row revokes the id. The rows are taken by their places and not as the library's chunks, so that must-fail/rows_of_16.edit can
// take them at other places, with all that is needed there, and is refused for its answer alone.
pub fn is_revoked(list: &[u8], id: &[u8], clock: Seconds) -> bool
    ensures { result ≡ is_revoked (revocations_of list.now) id.now clock.0 }
{
    for i in 0..list.len() / REVOCATION_SIZE {
        let at = REVOCATION_SIZE * i;
        if row_revokes(&list[at..at + REVOCATION_SIZE], id, clock) {
            return true;
        }
    }
    false
}
