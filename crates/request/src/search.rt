// The grant that is picked for a request. Document 01: the search ends at the first grant that matches; document 02: of the grants that
// serve the one that matches most levels by equal names is picked, the earliest on a tie. So the search goes on to the last grant.
ghost use Rattle.std.specs.Prelude.{◌≡◌, true, ◌+◌, ◌≤◌, length, None};
ghost use Rattle.resource_spec.specs.Identifier.{levels_place};
ghost use Rattle.descriptor_spec.specs.Modes.{highest_mode};
ghost use Rattle.descriptor.specs.Code.{grant_of};
ghost use Rattle.octets.specs.Scan.{without};
ghost use Rattle.request_spec.specs.Decision.{pick_from};
ghost use Rattle.request.specs.Code.{eligible, serving, picked_of};

use descriptor::GrantFields;
use request_spec::Picked;
use resource_spec::sizes::LEVELS_PLACE;

// Whether a grant has the mode and no constraint pair. `narrowing` tests the bit in the same way; the two share no crate that has functions but
// `descriptor`, which knows of masks and of no question about them.
#[tactic(auto, using(crate::proofs::SearchCode::eligible_bit, crate::proofs::SearchCode::eligible_not))]
fn is_eligible(mask: u64, pairs: u64, mode: u64) -> bool
    requires { mode ≤ highest_mode }
    ensures { result ≡ eligible mask pairs mode }
{
    mask >> mode & 1 == 1 && pairs == 0
}

// The grant of place `grant` and how many levels of the resource r it matches by equal names, where it serves.
#[tactic(auto, using(crate::proofs::SearchCode::serving_is))]
fn serving(s: &[u8], grant: u64, fields: GrantFields, mode: u64, r: &[u8]) -> Option<Picked>
    requires { (mode ≤ highest_mode) × (without 42 r.now ≡ true) × (levels_place ≤ fields.len)
        × (fields.pattern + fields.len ≤ length s.now) }
    ensures { result ≡ serving s.now r.now mode grant (grant_of fields) }
{
    if !is_eligible(fields.mask, fields.pairs, mode) {
        return None;
    }
    let start = fields.pattern;
    let names = resource::match_levels(&s[start + LEVELS_PLACE..start + fields.len], r)?;
    Some(Picked {
        grant,
        mask: fields.mask,
        names,
    })
}

// Of the grant that was picked before and one that is found after it, the one that matches more levels by equal names; the earlier on a
// tie.
fn more_exact(best: Option<Picked>, found: Option<Picked>) -> Option<Picked>
    ensures { result ≡ picked_of best found }
{
    match (best, found) {
        (Some(most), Some(more)) if most.names < more.names => found,
        (None, _) => found,
        _ => best,
    }
}

// The grant that is picked of the `count` grants from `first` on.
#[tactic(auto, using(crate::proofs::SearchCode::pick_laws))]
pub(crate) fn pick_grant(s: &[u8], first: usize, count: u64, mode: u64, r: &[u8]) -> Option<Picked>
    requires { (mode ≤ highest_mode) × (without 42 r.now ≡ true) }
    ensures { result ≡ pick_from s.now r.now mode count first 0 None }
{
    let mut at = first;
    let mut best = None;
    for grant in 0..count {
        let Some((fields, next)) = descriptor::read_grant(s, at) else {
            return best;
        };
        best = more_exact(best, serving(s, grant, fields, mode, r));
        at = next;
    }
    best
}
