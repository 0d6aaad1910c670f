// The first grant of a child by which a path escapes, the lowest mode, and the fewest names.
ghost use Rattle.std.specs.Prelude.{◌≡◌, ◌-◌, ◌≤◌, ◌<◌, length, take};
ghost use Rattle.resource_spec.specs.Level.{levels};
ghost use Rattle.resource_spec.specs.Pattern.{ends_deep};
ghost use Rattle.resource_spec.specs.Text.{levels_of};
ghost use Rattle.descriptor_spec.specs.Modes.{mode_count};
ghost use Rattle.descriptor_spec.specs.Reader.{has_mode};
ghost use Rattle.narrowing_spec.specs.Escape.{least};
ghost use Rattle.narrowing.specs.Range.{most};
ghost use Rattle.narrowing.specs.Code.{RowIn, InPlace, Filled, lacks_at, lowest_from, lowest_in, EscapeOf, full_range, row_covers};
ghost use Rattle.narrowing.specs.Code.{AloneOf, full_modes, row_marked, MarkedOf, FirstOf};

use crate::range::{MOST, cover, mark};
use descriptor_spec::sizes::MODE_COUNT;
use narrowing_spec::NarrowingError;
use resource::is_deep;
use resource_spec::sizes::LEVELS_PLACE;
use std::ops::Range;

// A path that escapes: its mode, and the names that "**" takes in it.
#[derive(Clone, Copy)]
pub(crate) struct Escape {
    pub(crate) mode: u64,
    pub(crate) levels: u64,
}

// A grant of the parent: where its levels begin, where they end, and the mask.
#[derive(Clone, Copy)]
pub(crate) struct Row {
    pub(crate) start: usize,
    pub(crate) end: usize,
    pub(crate) mask: u64,
}

// The parent's bytes, the rows of its grants, and whether its terminal id is the child's.
#[derive(Clone, Copy)]
pub(crate) struct Parent<'a> {
    pub(crate) bytes: &'a [u8],
    pub(crate) rows: &'a [Row],
    pub(crate) shared: bool,
    ghost in_place: { InPlace bytes.now rows.now },
}

// A grant of the child: its levels, whether they end with "**", and the mask.
#[derive(Clone, Copy)]
struct Grant<'a> {
    text: &'a [u8],
    deep: bool,
    mask: u64,
    ghost ends: { deep ≡ ends_deep (levels_of (levels text.now)) },
}

// Reads the `count` grants from `at` on into the first rows of the table. Answers the number of rows.
#[tactic(auto, using(descriptor_spec::proofs::Laws::pattern_room))]
pub(crate) fn fill(parent: &[u8], at: usize, count: usize, table: &mut [Row]) -> usize
    requires { count ≤ length table.old }
    ensures rows { result ≤ length table.new }
    ensures filled { Filled parent.now (take result table.new) count at }
{
    let mut here = at;
    for i in 0..count {
        let Some((fields, next)) = descriptor::read_grant(parent, here) else {
            return i;
        };
        table[i] = Row {
            start: fields.pattern + LEVELS_PLACE,
            end: fields.pattern + fields.len,
            mask: fields.mask,
        };
        here = next;
    }
    count
}

// Whether the mask has the mode.
#[tactic(auto, using(crate::proofs::SearchCode::mode_bit))]
fn has_mode(mask: u64, mode: u64) -> bool
    requires { mode < mode_count }
    ensures { result ≡ has_mode mask mode }
{
    mask >> mode & 1 == 1
}

// The least number from `from` on and below `to` at which the mask marked lacks the mode.
fn least_lacking(d: &[u64], mode: u64, from: usize, to: usize) -> Option<usize>
    requires { (mode < mode_count) × (from ≤ to) × (to ≤ length d.now) }
    ensures { result ≡ least (lacks_at d.now mode) from (to - from) }
{
    for k in from..to {
        if !has_mode(d[k], mode) {
            return Some(k);
        }
    }
    None
}

// Whether the last level of p is "**".
fn ends_deep(p: &[u8]) -> bool
    ensures { result ≡ ends_deep (levels_of (levels p.now)) }
{
    is_deep(p) || p.ends_with(b"/**")
}

// The lowest of the mask's modes in which a path escapes, with the fewest names from `from` on and below `to`.
fn lowest(d: &[u64], mask: u64, from: usize, to: usize) -> Option<Escape>
    requires { (from ≤ to) × (to ≤ length d.now) }
    ensures { result ≡ lowest_from d.now mask from to 0 mode_count }
{
    for mode in 0..MODE_COUNT {
        if has_mode(mask, mode) {
            if let Some(k) = least_lacking(d, mode, from, to) {
                return Some(Escape {
                    mode,
                    levels: k as u64,
                });
            }
        }
    }
    None
}

// Whether the numbers of the range are all that "**" can take; without "**" whether 0 is one of them.
fn is_full(r: &Range<usize>, deep: bool) -> bool
    ensures { result ≡ full_range r.now deep }
{
    if deep {
        return (r.start <= 1) & (MOST <= r.end);
    }
    (r.start == 0) & (0 < r.end)
}

// Row i, or the first row where i is past the last.
fn turned(i: usize, rows: usize) -> usize
    requires { 0 < rows }
    ensures { result < rows }
{
    if i < rows {
        return i;
    }
    0
}

impl Grant<'_> {
    // Whether the grant of a row of the parent's bytes covers this one alone.
    #[tactic(auto, unfolding(crate::specs::Code::row_covers, octets::specs::Bytes::part))]
    fn is_covered(&self, parent: &[u8], row: Row) -> bool
        requires { RowIn parent.now row }
        ensures { result ≡ row_covers parent.now row self.now.text.now self.now.mask self.now.deep }
    {
        if row.mask | self.mask != row.mask {
            return false;
        }
        is_full(&cover(&parent[row.start..row.end], self.text), self.deep)
    }

    // Notes a row of the parent's bytes, for each number of names with which its grant covers this one's levels. Answers the row's modes
    // where it does so with every number, else 0.
    #[tactic(auto, unfolding(crate::specs::Code::row_marked, crate::specs::Code::full_modes, octets::specs::Bytes::part))]
    fn mark_row(&self, parent: &[u8], row: Row, d: &mut [u64]) -> u64
        requires { RowIn parent.now row }
        ensures modes { result ≡ full_modes parent.now row self.now.text.now self.now.deep }
        ensures marks { d.new ≡ row_marked parent.now row self.now.text.now d.old }
    {
        let r = cover(&parent[row.start..row.end], self.text);
        let all = is_full(&r, self.deep);
        mark(d, r, row.mask);
        if all {
            return row.mask;
        }
        0
    }

    // The lowest of this grant's modes in which a path escapes, by the masks marked, with the fewest names that "**" can take.
    #[tactic(auto, unfolding(crate::specs::Code::lowest_in))]
    fn lowest(&self, d: &[u64; MOST]) -> Option<Escape>
        ensures { result ≡ lowest_in self.now.deep d.now self.now.mask }
    {
        if self.deep {
            return lowest(d, self.mask, 1, MOST);
        }
        lowest(d, self.mask, 0, 1)
    }
}

impl Parent<'_> {
    // The row `near` or the one after it, where its grant alone covers the child's.
    fn alone(&self, near: usize, grant: &Grant) -> Option<usize>
        ensures { AloneOf self.now.bytes.now self.now.rows.now grant.now.text.now grant.now.mask grant.now.deep result }
    {
        let count = self.rows.len();
        if count == 0 {
            return None;
        }
        let row = turned(near, count);
        if grant.is_covered(self.bytes, self.rows[row]) {
            return Some(row);
        }
        let next = turned(row + 1, count);
        if grant.is_covered(self.bytes, self.rows[next]) {
            return Some(next);
        }
        None
    }

    // Notes for each number of names the modes in which the parent's grants cover the child's levels. A row that adds no mode of the child's
    // mask to those that the rows before it cover with every number is left out; where these are all modes of the mask, it stops and
    // answers the last of these rows.
    fn mark_rows(&self, grant: &Grant, d: &mut [u64; MOST]) -> Option<usize>
        ensures { MarkedOf self.now.bytes.now self.now.rows.now grant.now.text.now d.old grant.now.mask grant.now.deep result d.new }
    {
        let mut done: u64 = 0;
        for (i, row) in self.rows.iter().enumerate() {
            if (row.mask & grant.mask) | done != done {
                done |= grant.mark_row(self.bytes, *row, d);
                if done | grant.mask == done {
                    return Some(i);
                }
            }
        }
        None
    }

    // How a path escapes by the child's grant. The row `near` and the one after it are tried first: a child's grants often stand in the order
    // of the parent's. Where a row alone or the rows up to one cover the grant, `near` becomes that row.
    fn escape_by(&self, grant: &Grant, near: &mut usize) -> Option<Escape>
        ensures { EscapeOf self.now.bytes.now self.now.rows.now self.now.shared grant.now.text.now grant.now.mask result }
    {
        if self.shared {
            if let Some(row) = self.alone(*near, grant) {
                *near = row;
                return None;
            }
        }
        let mut d = [0u64; MOST];
        if self.shared {
            if let Some(row) = self.mark_rows(grant, &mut d) {
                *near = row;
                return None;
            }
        }
        grant.lowest(&d)
    }

    // Refuses the first of the child's grants from `from` on by which a path escapes.
    #[tactic(auto, using(descriptor_spec::proofs::Laws::pattern_room))]
    pub(crate) fn first(&self, child: &[u8], from: usize, grants: u64) -> Result<(), NarrowingError>
        ensures { FirstOf self.now.bytes.now self.now.rows.now self.now.shared child.now grants from result }
    {
        let mut here = from;
        let mut near: usize = 0;
        for i in 0..grants {
            let Some((fields, next)) = descriptor::read_grant(child, here) else {
                return Ok(());
            };
            let text = &child[fields.pattern + LEVELS_PLACE..fields.pattern + fields.len];
            let grant = Grant {
                text,
                deep: ends_deep(text),
                mask: fields.mask,
            };
            if let Some(Escape { mode, levels }) = self.escape_by(&grant, &mut near) {
                return Err(NarrowingError::NotCovered {
                    grant: i,
                    mode,
                    levels,
                });
            }
            here = next;
        }
        Ok(())
    }
}
