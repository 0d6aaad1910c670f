// The lease table: its rows, and the lease under an id. A loop over all rows goes from the last to the first, as the definitions do.
ghost use Rattle.std.specs.Prelude.{◌≡◌, true, cond, Ok, Err, ◌+◌, ◌*◌, ◌-◌, ◌≤◌, ◌<◌, length};
ghost use Rattle.lease.specs.Code.{id_number, slots, slot_of};
ghost use Rattle.lease_spec.specs.Table.{lease_size, has_id, ids_differ, lease_under, lease_at, lease_read, rows_from, rows_ok, malformed, find_in};

use crate::states::is_within;
use crate::{Lease, Malformed};
use descriptor_spec::sizes::ID_SIZE;
use lease_spec::sizes::{
    FLAG_PLACE, FLAG_WIDTH, GRACE_PLACE, LAST_SYNC_PLACE, LEASE_SIZE, NUMBER_WIDTH, SKEW_PLACE,
    TOLERANCE_PLACE, TTL_PLACE, ZERO_PLACE, ZERO_WIDTH,
};
use octets::{number_at, same_bytes};
use time::{Milliseconds, Seconds};

// How many slots the rows of a table mark.
const SLOTS: usize = 8192;

// The lease whose row is the 64 bytes from the place on.
#[tactic(auto, using(octets::proofs::NumberLaws::number_in_lem), unfolding(lease_spec::specs::Table::lease_at))]
fn lease_at(table: &[u8], at: usize) -> Lease
    requires { at + lease_size ≤ length table.now }
    ensures { result ≡ lease_at table.now at }
{
    Lease {
        revoked: number_at(table, at + FLAG_PLACE, FLAG_WIDTH) == 1,
        last_sync: Milliseconds(number_at(table, at + LAST_SYNC_PLACE, NUMBER_WIDTH)),
        ttl: Seconds(number_at(table, at + TTL_PLACE, NUMBER_WIDTH)),
        grace: Seconds(number_at(table, at + GRACE_PLACE, NUMBER_WIDTH)),
        skew: Milliseconds(number_at(table, at + SKEW_PLACE, NUMBER_WIDTH)),
        tolerance: Milliseconds(number_at(table, at + TOLERANCE_PLACE, NUMBER_WIDTH)),
    }
}

// The lease whose row begins at the place, where its bytes are all there and allowed.
#[tactic(auto, using(octets::proofs::NumberLaws::number_in_lem), unfolding(lease_spec::specs::Table::lease_read, lease_spec::specs::Table::row_ok))]
pub fn read_row(table: &[u8], at: usize) -> Option<Lease>
    ensures { result ≡ lease_read table.now at }
{
    if table.len() < LEASE_SIZE
        || table.len() - LEASE_SIZE < at
        || 1 < number_at(table, at + FLAG_PLACE, FLAG_WIDTH)
        || number_at(table, at + ZERO_PLACE, ZERO_WIDTH) != 0
    {
        return None;
    }
    let lease = lease_at(table, at);
    if is_within(lease) { Some(lease) } else { None }
}

// Whether one of the rows from row `from` on, up to row n, has the id.
#[tactic(auto, using(crate::proofs::RowCode::id_turn, crate::proofs::RowCode::id_none))]
fn has_id(table: &[u8], from: usize, n: usize, id: &[u8]) -> bool
    requires { (from ≤ n) × (lease_size * n ≤ length table.now) }
    ensures { result ≡ has_id (rows_from table.now from (n - from)) id.now }
{
    for i in from..n {
        let at = LEASE_SIZE * i;
        if same_bytes(&table[at..at + ID_SIZE], id) {
            return true;
        }
    }
    false
}

// The id of row i as a number. It stands in both loops, where a call would cost half as much again.
#[inline(always)]
#[tactic(auto, using(octets::proofs::NumberLaws::number_in_lem, crate::proofs::IdCode::halves_joined))]
fn id_number(table: &[u8], i: usize) -> u128
    requires { lease_size * (i + 1) ≤ length table.now }
    ensures { result ≡ id_number table.now i }
{
    let at = LEASE_SIZE * i;
    let high = u128::from(number_at(table, at, NUMBER_WIDTH));
    let low = u128::from(number_at(table, at + NUMBER_WIDTH, NUMBER_WIDTH));
    high << 64 | low
}

// The slot of an id, which both halves of it tell.
#[tactic(auto, unfolding(crate::specs::Code::slot_of))]
fn slot_of(id: u128) -> usize
    ensures value { result ≡ slot_of id }
    ensures upper_bound { result < slots }
{
    ((id ^ id >> 64) % SLOTS as u128) as usize
}

// Whether each id of the n rows is below the one after it; then no two rows have one id.
#[tactic(auto, using(crate::proofs::IdCode::ascends_end))]
fn ids_ascend(table: &[u8], n: usize) -> bool
    requires { lease_size * n ≤ length table.now }
    ensures { result ≡ true → ids_differ (rows_from table.now 0 n) ≡ true }
{
    let mut least = u128::MAX;
    for i in (0..n).rev() {
        let id = id_number(table, i);
        if id >= least {
            return false;
        }
        least = id;
    }
    true
}

// Whether no two of the n rows have one id. A table whose ids ascend is looked at once. In another one each row marks the slot of its id,
// and only an id whose slot is marked already is searched for among the rows after it.
#[tactic(auto, using(crate::proofs::IdCode::marked_end))]
fn ids_differ(table: &[u8], n: usize) -> bool
    requires { lease_size * n ≤ length table.now }
    ensures { result ≡ ids_differ (rows_from table.now 0 n) }
{
    if ids_ascend(table, n) {
        return true;
    }
    let mut seen = [false; SLOTS];
    for i in (0..n).rev() {
        let at = LEASE_SIZE * i;
        let slot = slot_of(id_number(table, i));
        let again = seen[slot];
        seen[slot] = true;
        if again && has_id(table, i + 1, n, &table[at..at + ID_SIZE]) {
            return false;
        }
    }
    true
}

// The lease that one of the n rows has under the id.
#[tactic(auto, using(crate::proofs::RowCode::search_laws))]
fn search(table: &[u8], n: usize, id: &[u8]) -> Result<Option<Lease>, Malformed>
    requires { lease_size * n ≤ length table.now }
    ensures { result ≡ cond (rows_ok table.now 0 n)
        (Ok (lease_under (rows_from table.now 0 n) id.now)) (Err malformed) }
{
    let mut found = None;
    for i in (0..n).rev() {
        let at = LEASE_SIZE * i;
        let lease = read_row(table, at).ok_or(Malformed)?;
        if same_bytes(&table[at..at + ID_SIZE], id) {
            found = Some(lease);
        }
    }
    Ok(found)
}

// The lease that the table has under the id, where there is one; an error where the bytes are no lease table.
#[tactic(auto, using(octets::proofs::Tests::and_false), unfolding(lease_spec::specs::Table::find_in, lease_spec::specs::Table::table_ok, lease_spec::specs::Table::rows_of))]
pub fn find(table: &[u8], id: &[u8]) -> Result<Option<Lease>, Malformed>
    ensures { result ≡ find_in table.now id.now }
{
    let n = table.len() / LEASE_SIZE;
    if table.len() % LEASE_SIZE != 0 || !ids_differ(table, n) {
        return Err(Malformed);
    }
    search(table, n, id)
}
