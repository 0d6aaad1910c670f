// For which numbers of names one pattern's levels cover another's.
ghost use Rattle.std.specs.Prelude.{◌≡◌};
ghost use Rattle.resource_spec.specs.Level.{levels};
ghost use Rattle.resource_spec.specs.Text.{levels_of};
ghost use Rattle.narrowing.specs.Range.{fresh_range, text_range, marked};

use resource::{LevelStep, is_deep};
use std::ops::Range;

// More names than any parent's pattern of 256 bytes has levels.
pub(crate) const MOST: usize = 128;

// How many names that q does not have q matches: only "*" and "**" do.
fn fresh(q: &[u8]) -> Range<usize>
    ensures { result ≡ fresh_range 0 (levels_of (levels q.now)) }
{
    let mut rest = q;
    let mut taken: usize = 0;
    while let Some(next) = rest.strip_prefix(b"*/") {
        rest = next;
        taken += 1;
    }
    if is_deep(rest) {
        return taken + 1..MOST;
    }
    if rest == b"*".as_slice() {
        return taken + 1..taken + 2;
    }
    0..0
}

// With how many names for the "**" of p q covers p. Each turn of the loop compares the first levels of what is left of both; the step
// says where the next levels begin, so that no iterator over levels is plainer.
#[tactic(auto, using(crate::proofs::CoverCode::next_in))]
pub(crate) fn cover(q: &[u8], p: &[u8]) -> Range<usize>
    ensures { result ≡ text_range q.now p.now }
{
    let mut rest_q = q;
    let mut rest_p = p;
    loop {
        if is_deep(rest_q) {
            return 0..MOST;
        }
        if is_deep(rest_p) {
            return fresh(rest_q);
        }
        match resource::step_levels(rest_q, rest_p) {
            None => return 0..0,
            Some(LevelStep::Finish { names: _ }) => return 0..1,
            Some(
                LevelStep::Next {
                    p: i,
                    r: j,
                    names: _,
                },
            ) => {
                rest_q = &rest_q[i + 1..];
                rest_p = &rest_p[j + 1..];
            }
        }
    }
}

// Joins the mask to those at the numbers of the range.
pub(crate) fn mark(d: &mut [u64], r: Range<usize>, mask: u64)
    ensures { d.new ≡ marked 0 d.old r mask }
{
    for k in r.start..r.end.min(d.len()) {
        d[k] |= mask;
    }
}
