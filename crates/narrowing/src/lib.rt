// The functions that narrow a child under a parent. What narrowing is and what is promised of it is in `narrowing_spec`.
#![tactic(auto)]

mod range;
mod search;

ghost use Rattle.std.specs.Prelude.{◌≡◌, ◌+◌, ◌≤◌, length};
ghost use Rattle.resource_spec.specs.Identifier.{terminal_size};
ghost use Rattle.narrowing_spec.specs.Narrow.{narrow as narrowed};
ghost use Rattle.narrowing.specs.Code.{compared_in};

use descriptor::{Fields, ReadError};
pub use narrowing_spec::{NarrowingError, NarrowingNumbers};
use resource_spec::sizes::TERMINAL_SIZE;
use search::{Parent, Row};

// Both read: 19, then 18, then 20, else accepted.
#[tactic(auto, unfolding(crate::specs::Code::compared_in))]
fn compared(s: &[u8], v: Fields, t: &[u8], w: Fields) -> Result<(), NarrowingError>
    requires { (v.terminal + terminal_size ≤ length s.now) × (w.terminal + terminal_size ≤ length t.now) × (v.grants ≤ 256) }
    ensures { result ≡ compared_in s.now v t.now w }
{
    if v.constraints != 0 || w.constraints != 0 {
        return Err(NarrowingError::Constrained);
    }
    if w.not_before < v.not_before || v.not_after < w.not_after {
        return Err(NarrowingError::Period);
    }
    let shared = s[v.terminal..v.terminal + TERMINAL_SIZE]
        == t[w.terminal..w.terminal + TERMINAL_SIZE];
    let mut table = [Row {
        start: 0,
        end: 0,
        mask: 0,
    }; 256];
    let rows = search::fill(s, v.first, v.grants as usize, &mut table);
    let parent = Parent {
        bytes: s,
        rows: &table[..rows],
        shared,
    };
    parent.first(t, w.first, w.grants)
}

// Narrows the child under the parent.
pub fn narrow(parent: &[u8], child: &[u8]) -> Result<(), NarrowingError>
    ensures { result ≡ narrowed parent.now child.now }
{
    let Ok(v) = descriptor::read_descriptor(parent) else {
        return Err(NarrowingError::NoParent);
    };
    match descriptor::read_descriptor(child) {
        Ok(w) => compared(parent, v, child, w),
        Err(ReadError::Structure) => Err(NarrowingError::Structure),
        Err(ReadError::Validity) => Err(NarrowingError::Validity),
    }
}
