// Numbers in network byte order.
ghost use Rattle.std.specs.Prelude.{◌≡◌, ◌^◌, ◌<◌};
ghost use Rattle.octets.specs.Number.{big_endian, number_in};
ghost use Rattle.octets.specs.Write.{put_at};

// The number in the w bytes from the place on, the highest byte first; 0 where they are not there, or more than 8.
#[tactic(auto, using(crate::proofs::NumberLaws::number_wide, crate::proofs::NumberLaws::number_short, crate::proofs::NumberLaws::pow_some, crate::proofs::NumberLaws::pow_more, crate::proofs::NumberLaws::pow_room, crate::proofs::NumberLaws::number_more, crate::proofs::NumberLaws::number_in_lem))]
pub fn number_at(s: &[u8], at: usize, w: usize) -> u64
    ensures value { result ≡ number_in s.now at w }
    ensures upper_bound { result < 256 ^ w }
{
    if 8 < w || s.len() < at || s.len() - at < w {
        return 0;
    }
    let mut n: u64 = 0;
    for k in 0..w {
        n = n * 256 + s[at + k] as u64;
    }
    n
}

// Writes n in w bytes from the place on, the highest byte first, where they fit. The lowest is written first.
#[tactic(auto, using(crate::proofs::OverLaws::put_not, crate::proofs::NumberLaws::length_big_endian))]
pub fn put_number(d: &mut [u8], at: usize, w: usize, n: u64)
    ensures { d.new ≡ put_at d.old at (big_endian w n) }
{
    if d.len() < at || d.len() - at < w {
        return;
    }
    let mut left = n;
    for k in (0..w).rev() {
        d[at + k] = (left % 256) as u8;
        left /= 256;
    }
}
