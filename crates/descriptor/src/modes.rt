// Modes, by the names of their numbers.
ghost use Rattle.std.specs.Prelude.{◌≡◌, ◌<◌};
ghost use Rattle.descriptor_spec.specs.Reader.{mode_at, modes_at};
ghost use Rattle.descriptor.specs.Code.{with_mode};
ghost use Rattle.entries.specs.Code.{count_read};

use descriptor_spec::sizes::MODE_COUNT;
use entries::keys;
use entries::value::{after_key, keyed_count};

// The mask with one bit more, which it does not have yet.
#[tactic(auto, unfolding(crate::specs::Code::with_mode, exact::specs::Reads::guard))]
fn with_mode(mask: u64, bit: u64, next: usize) -> Option<(u64, usize)>
    requires { (mask < 16) × (0 < bit) × (bit < 16) }
    ensures { count_read result ≡ with_mode mask bit next }
{
    if mask / bit % 2 == 1 {
        return None;
    }
    Some((mask + bit, next))
}

// One mode more.
#[tactic(auto, using(entries::proofs::Laws::one_first, entries::proofs::Laws::one_next, entries::proofs::Laws::one_none), unfolding(descriptor_spec::specs::Reader::mode_at, descriptor_spec::specs::Reader::has_mode, crate::specs::Code::with_mode, descriptor_spec::specs::Model::mode_names, entries_spec::specs::Keys::m_read, entries_spec::specs::Keys::m_write, entries_spec::specs::Keys::m_execute, entries_spec::specs::Keys::m_configure, exact::specs::Reads::bind))]
fn mode_at(s: &[u8], mask: u64, at: usize) -> Option<(u64, usize)>
    requires { mask < 16 }
    ensures { count_read result ≡ mode_at s.now mask at }
{
    if let Some(next) = after_key(s, at, &keys::READ) {
        return with_mode(mask, 1, next);
    }
    if let Some(next) = after_key(s, at, &keys::WRITE) {
        return with_mode(mask, 2, next);
    }
    if let Some(next) = after_key(s, at, &keys::EXECUTE) {
        return with_mode(mask, 4, next);
    }
    with_mode(mask, 8, after_key(s, at, &keys::CONFIGURE)?)
}

// 1 to 4 modes after their key; the value is their mask.
#[tactic(auto, using(crate::proofs::RoomCode::mode_small, exact::proofs::CountedLaws::many_begin, exact::proofs::CountedLaws::many_next, exact::proofs::CountedLaws::many_stop, exact::proofs::CountedLaws::many_done), unfolding(descriptor_spec::specs::Reader::modes_at, entries_spec::specs::Keys::k_modes, exact::specs::Reads::bind))]
pub(crate) fn modes_at(s: &[u8], at: usize) -> Option<(u64, usize)>
    ensures { count_read result ≡ modes_at s.now at }
{
    let (count, next) = keyed_count(s, at, &keys::MODES, 4, 1, MODE_COUNT)?;
    let mut mask: u64 = 0;
    let mut here = next;
    for _ in 0..count {
        (mask, here) = mode_at(s, mask, here)?;
    }
    Some((mask, here))
}
