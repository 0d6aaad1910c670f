// Matching a pattern against a path, level by level from the left.
ghost use Rattle.std.specs.Prelude.{◌≡◌, true, cond, Ok, Err, None};
ghost use Rattle.octets.specs.Scan.{without};
ghost use Rattle.resource_spec.specs.Level.{is_deep};
ghost use Rattle.resource_spec.specs.Text.{resource_ok, matching};
ghost use Rattle.resource.specs.Code.{level_length, name_step, star_first, star_step, step_of, match_step, levels_by_steps, answer_of};

use crate::LevelStep;
use crate::levels::{below, is_pattern, is_resource};
use resource_spec::Malformed;
use resource_spec::sizes::{LEVELS_PLACE, TERMINAL_SIZE};

// A name of p against a name of r.
#[tactic(auto, using(crate::proofs::FirstLevelLaws::name_laws))]
fn name_step(p: &[u8], r: &[u8]) -> Option<LevelStep>
    ensures { result ≡ name_step 0 p.now r.now }
{
    for (i, b) in p.iter().enumerate() {
        if r.len() <= i || *b != r[i] {
            return None;
        }
        if *b == b'/' {
            return Some(LevelStep::Next {
                p: i,
                r: i,
                names: 1,
            });
        }
    }
    if p.len() < r.len() {
        return None;
    }
    Some(LevelStep::Finish { names: 1 })
}

// Whether the first level of p is "*".
fn star_first(p: &[u8]) -> bool
    ensures { result ≡ star_first p.now }
{
    p == b"*".as_slice() || p.starts_with(b"*/")
}

// "*" against the first level of r.
#[tactic(auto, unfolding(crate::specs::Code::star_step))]
fn star_step(p: &[u8], r: &[u8]) -> Option<LevelStep>
    ensures { result ≡ star_step p.now r.now (level_length r.now) }
{
    let n = octets::until(r, 0, b'/');
    match (p.len() == 1, n == r.len()) {
        (true, true) => Some(LevelStep::Finish { names: 0 }),
        (false, false) => Some(LevelStep::Next {
            p: 1,
            r: n,
            names: 0,
        }),
        _ => None,
    }
}

// Whether p is "**".
#[tactic(auto, using(crate::proofs::FirstLevelLaws::bytes_same))]
pub fn is_deep(p: &[u8]) -> bool
    ensures { result ≡ is_deep p.now }
{
    p == b"**".as_slice()
}

// The first level of a pattern's levels p against the first level of r: a name against the same bytes, "*" against any. Where r is a
// pattern's levels too, its wildcards stand for names that p does not have. Equal levels are found in one pass over their bytes; only where
// they are not equal is it looked whether the one of p is "*".
#[tactic(auto, unfolding(crate::specs::Code::step_of))]
pub fn step_levels(p: &[u8], r: &[u8]) -> Option<LevelStep>
    ensures { result ≡ step_of p.now r.now }
{
    if let Some(step) = name_step(p, r) {
        return Some(step);
    }
    if star_first(p) { star_step(p, r) } else { None }
}

// The first level of a pattern's levels p against the first level of a path's levels r; a "**" that is all that p has left matches all that
// r has left.
#[tactic(auto, unfolding(crate::specs::Code::match_step))]
pub fn match_step(p: &[u8], r: &[u8]) -> Option<LevelStep>
    ensures { result ≡ match_step p.now r.now }
{
    if let Some(step) = step_levels(p, r) {
        return Some(step);
    }
    if is_deep(p) {
        Some(LevelStep::Finish { names: 0 })
    } else {
        None
    }
}

// How many levels are counted, where the levels p of a pattern match the levels r, step by step; where r has no "*", as no path has, that is
// how many are matched by equal names. Each step says how many bytes it passed in both, so that no iterator gives the levels.
#[tactic(auto, using(crate::proofs::LevelsCode::levels_laws))]
pub fn match_levels(p: &[u8], r: &[u8]) -> Option<u64>
    ensures steps { result ≡ levels_by_steps p.now r.now }
    ensures named { without 42 r.now ≡ true → result ≡ answer_of p.now r.now }
{
    let mut rest_p = p;
    let mut rest_r = r;
    let mut counted: u64 = 0;
    loop {
        match match_step(rest_p, rest_r)? {
            LevelStep::Finish { names } => return Some(counted + names),
            LevelStep::Next { p: i, r: j, names } => {
                rest_p = &rest_p[i + 1..];
                rest_r = &rest_r[j + 1..];
                counted += names;
            }
        }
    }
}

// What matching a pattern with a text of another terminal id answers.
fn other_terminal(r: &[u8]) -> Result<Option<u64>, Malformed>
    ensures { result ≡ cond (resource_ok r.now) (Ok None) (Err (record {})) }
{
    if is_resource(r) {
        return Ok(None);
    }
    Err(Malformed)
}

// Whether the pattern p matches the resource id r, and how many levels are matched by equal names. Where r begins with the terminal id of
// p, that id is not looked at a second time.
pub fn match_texts(p: &[u8], r: &[u8]) -> Result<Option<u64>, Malformed>
    ensures { result ≡ matching p.now r.now }
{
    if !is_pattern(p) {
        return Err(Malformed);
    }
    if !octets::same_start(p, r, TERMINAL_SIZE) {
        return other_terminal(r);
    }
    if !below(r, false) {
        return Err(Malformed);
    }
    Ok(match_levels(&p[LEVELS_PLACE..], &r[LEVELS_PLACE..]))
}
