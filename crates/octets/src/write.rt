// Writing and moving bytes.
ghost use Rattle.std.specs.Prelude.{◌≡◌};
ghost use Rattle.octets.specs.Write.{put_at, moved_up, moved_down};

// Writes s from the place on, where it fits. The library's `copy_from_slice` would be a call of memmove, which the archives for C would need
// from outside.
#[tactic(auto, using(crate::proofs::OverLaws::put_not))]
pub fn put(d: &mut [u8], at: usize, s: &[u8])
    ensures { d.new ≡ put_at d.old at s.now }
{
    if d.len() < at || d.len() - at < s.len() {
        return;
    }
    for i in 0..s.len() {
        d[at + i] = s[i];
    }
}

// Moves the bytes from `from` up to `to` up by `by`, where that fits, the last first.
#[tactic(auto, using(crate::proofs::OverLaws::moved_no_bytes, crate::proofs::OverLaws::moved_no_room))]
pub fn move_up(d: &mut [u8], from: usize, to: usize, by: usize)
    ensures { d.new ≡ moved_up d.old from to by }
{
    if to < from || d.len() < to || d.len() - to < by {
        return;
    }
    for i in (from..to).rev() {
        d[i + by] = d[i];
    }
}

// Moves the n bytes from `from` on down to `to`, where they are there and `to` is not after them, the first first. Where both are the same
// place there is nothing to do.
#[tactic(auto, using(crate::proofs::MoveLaws::down_not, crate::proofs::MoveLaws::down_short))]
pub fn move_down(d: &mut [u8], from: usize, to: usize, n: usize)
    ensures { d.new ≡ moved_down d.old from to n }
{
    if from <= to || d.len() < from || d.len() - from < n {
        return;
    }
    for i in 0..n {
        d[to + i] = d[from + i];
    }
}
