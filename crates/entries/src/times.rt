// The times of a payload after their keys. From 65,536 to 2^32 - 1, in the year 2106, a time has four bytes: such a time is read where key
// and head stand as one byte string, and any other as a number with any head.
ghost use Rattle.std.specs.Prelude.{◌≡◌, [], ◌∷◌, ◌++◌};
ghost use Rattle.entries_spec.specs.Keys.{k_issued_at, k_not_after, k_not_before};
ghost use Rattle.entries_spec.specs.Value.{time_at, keyed_at};
ghost use Rattle.entries.specs.Code.{after_key, count_read};

use crate::keys;
use crate::value::{after_key, keyed_time};
use octets::number_at;

// The least number that is written in four bytes.
const LEAST_OF_FOUR: u64 = 65536;

// A time after its key, where `four` is the place after the key with the head of four bytes, if they stand there. That place is looked for
// by the callers, each with a key that is known when the code is compiled.
fn time_after(s: &[u8], at: usize, key: &[u8], four: Option<usize>) -> Option<(u64, usize)>
    requires { four ≡ after_key s.now at (key.now ++ 26 ∷ []) }
    ensures { count_read result ≡ keyed_at s.now at key.now (time_at s.now) }
{
    if let Some(place) = four {
        let n = number_at(s, place, 4);
        if LEAST_OF_FOUR <= n {
            return Some((n, place + 4));
        }
    }
    keyed_time(s, at, key)
}

// issued_at after its key.
#[tactic(auto, unfolding(entries_spec::specs::Keys::k_issued_at))]
pub fn issued_at(s: &[u8], at: usize) -> Option<(u64, usize)>
    ensures { count_read result ≡ keyed_at s.now at k_issued_at (time_at s.now) }
{
    let four = after_key(s, at, &keys::ISSUED_AT_FOUR);
    time_after(s, at, &keys::ISSUED_AT, four)
}

// not_after after its key.
#[tactic(auto, unfolding(entries_spec::specs::Keys::k_not_after))]
pub fn not_after(s: &[u8], at: usize) -> Option<(u64, usize)>
    ensures { count_read result ≡ keyed_at s.now at k_not_after (time_at s.now) }
{
    let four = after_key(s, at, &keys::NOT_AFTER_FOUR);
    time_after(s, at, &keys::NOT_AFTER, four)
}

// not_before after its key.
#[tactic(auto, unfolding(entries_spec::specs::Keys::k_not_before))]
pub fn not_before(s: &[u8], at: usize) -> Option<(u64, usize)>
    ensures { count_read result ≡ keyed_at s.now at k_not_before (time_at s.now) }
{
    let four = after_key(s, at, &keys::NOT_BEFORE_FOUR);
    time_after(s, at, &keys::NOT_BEFORE, four)
}
