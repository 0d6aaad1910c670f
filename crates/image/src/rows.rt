// The check of an image, row by row.
ghost use Rattle.std.specs.Prelude.{◌≡◌, false, ◌+◌, ◌≤◌, ◌<◌, length, eqb};
ghost use Rattle.octets.specs.Number.{number_at};
ghost use Rattle.descriptor_spec.specs.Allowed.{id_size};
ghost use Rattle.image_spec.specs.Layout.{header_size, row_size, most_rows, row_place, LayoutOk};
ghost use Rattle.image_spec.specs.Check.{header_fits, row_id, id_among, row_fits, row_at, rows_from, check_answer, check_of, find_of};
ghost use Rattle.image.specs.Code.{row_read, slot_at};

use crate::{Contents, FindError, StoredBody};
use descriptor::{Fields, Part};
use descriptor_spec::sizes::ID_SIZE;
use image_rows::place;
use image_spec::layout::{
    BODY_WIDTH, COUNT_PLACE, EDITION_PLACE, HEADER_SIZE, HEADER_WIDTH, HEADER_ZERO, LENGTH_PLACE,
    Layout, MASK_PLACE, MASK_WIDTH, MODE_EDITION, MODES_PLACE, OFFSET_PLACE, ZERO_PLACE,
};
use octets::{number_at, same_bytes};

// Whether the header has these editions, no more rows than the most, and zero.
#[tactic(auto, using(crate::proofs::CheckCode::header_is))]
fn header_fits(layout: Layout, s: &[u8]) -> bool
    requires { header_size ≤ length s.now }
    ensures { result ≡ header_fits layout s.now }
{
    (number_at(s, EDITION_PLACE, HEADER_WIDTH) == layout.edition)
        & (number_at(s, MODES_PLACE, HEADER_WIDTH) == MODE_EDITION)
        & (number_at(s, COUNT_PLACE, HEADER_WIDTH) <= layout.most_rows)
        & (number_at(s, HEADER_ZERO, HEADER_WIDTH) == 0)
}

// Whether one of the first n rows has the id.
#[tactic(auto, using(crate::proofs::RowsCode::row_inside))]
fn id_among(layout: Layout, s: &[u8], id: &[u8], n: usize) -> bool
    requires { LayoutOk layout × (n ≤ most_rows layout) × (row_place layout n ≤ length s.now) }
    ensures { result ≡ id_among layout s.now id.now n }
{
    for i in (0..n).rev() {
        let r = place(layout, i);
        if same_bytes(&s[r..r + ID_SIZE], id) {
            return true;
        }
    }
    false
}

// How many slots the ids of the rows mark.
const SLOTS: usize = 8192;

// The slot of the id of the row at r, by its last 8 bytes, which are random in ids as they are issued.
fn slot_of(s: &[u8], r: usize) -> usize
    requires { r + id_size ≤ length s.now }
    ensures { result ≡ slot_at s.now r }
{
    number_at(s, r + 8, 8) as usize % SLOTS
}

// Whether one of the first i rows has the id of the row at r; where the slot of that id was not marked before, none has.
fn is_twice(layout: Layout, s: &[u8], r: usize, i: usize, marked: bool) -> bool
    requires { LayoutOk layout × (i ≤ most_rows layout) × (row_place layout i ≤ length s.now) × (r + id_size ≤ length s.now)
        × (marked ≡ false → id_among layout s.now (row_id s.now r) i ≡ false) }
    ensures { result ≡ id_among layout s.now (row_id s.now r) i }
{
    marked && id_among(layout, s, &s[r..r + ID_SIZE], i)
}

// Whether the n bytes from a place on are zero.
fn is_zero(s: &[u8], at: usize, n: usize) -> bool
    requires { at + n ≤ length s.now }
    ensures { result ≡ eqb (number_at s.now at n) 0 }
{
    s[at..at + n].iter().all(|b| *b == 0)
}

// Whether the row at r is that of the body at `at`.
#[tactic(auto, using(crate::proofs::CheckCode::fits_not))]
fn row_fits(layout: Layout, s: &[u8], r: usize, at: usize, fields: Fields) -> bool
    requires { LayoutOk layout × (r + row_size layout ≤ length s.now) × (at + (fields.id + id_size) ≤ length s.now) }
    ensures { result ≡ row_fits layout s.now r at fields }
{
    let id = at + fields.id;
    if !same_bytes(&s[r..r + ID_SIZE], &s[id..id + ID_SIZE]) {
        return false;
    }
    (number_at(s, r + OFFSET_PLACE, BODY_WIDTH) == at as u64)
        & (number_at(s, r + MASK_PLACE, MASK_WIDTH) == fields.mask)
        & is_zero(s, r + ZERO_PLACE, layout.moment_place - ZERO_PLACE)
}

// What was read of the body of row i, which begins at `at`, and the place after it; whether the slot of the row's id was marked by a row
// before is known.
fn row_at(layout: Layout, s: &[u8], i: usize, at: usize, marked: bool) -> Option<(Fields, usize)>
    requires { LayoutOk layout × (i < most_rows layout) × (row_place layout i + row_size layout ≤ length s.now) × (at ≤ length s.now)
        × (marked ≡ false → id_among layout s.now (row_id s.now (row_place layout i)) i ≡ false) }
    ensures { row_read result ≡ row_at layout s.now i at }
{
    let r = place(layout, i);
    let n = number_at(s, r + LENGTH_PLACE, BODY_WIDTH) as usize;
    if s.len() - at < n {
        return None;
    }
    let fields = descriptor::read_descriptor(&s[at..at + n]).ok()?;
    if !row_fits(layout, s, r, at, fields) {
        return None;
    }
    if is_twice(layout, s, r, i, marked) {
        return None;
    }
    Some((fields, at + n))
}

// All n rows, and the body with the id.
#[tactic(auto, using(crate::proofs::RowsCode::row_inside, crate::proofs::SlotCode::slot_of_below))]
fn all_rows(layout: Layout, s: &[u8], id: &[u8], n: usize) -> Option<Contents>
    requires { LayoutOk layout × (n ≤ most_rows layout) × (row_place layout n ≤ length s.now) }
    ensures { result ≡ check_answer n (rows_from layout s.now id.now n 0 (row_place layout n) None) }
{
    let mut at = place(layout, n);
    let mut held = None;
    let mut seen = [false; SLOTS];
    for i in 0..n {
        let r = place(layout, i);
        let slot = slot_of(s, r);
        let (fields, next) = row_at(layout, s, i, at, seen[slot])?;
        seen[slot] = true;
        if same_bytes(&s[r..r + ID_SIZE], id) {
            held = Some(StoredBody {
                row: i,
                at,
                len: next - at,
                fields,
            });
        }
        at = next;
    }
    Some(Contents {
        rows: n as u64,
        end: at,
        held,
    })
}

// The check of the whole image.
#[tactic(auto, using(crate::proofs::CheckCode::check_short, crate::proofs::CheckCode::header_few, crate::proofs::CheckCode::check_header, crate::proofs::CheckCode::check_long, crate::proofs::CheckCode::check_rows))]
pub(crate) fn check(layout: Layout, s: &[u8], id: &[u8]) -> Option<Contents>
    requires { LayoutOk layout }
    ensures { result ≡ check_of layout s.now id.now }
{
    if s.len() < HEADER_SIZE {
        return None;
    }
    if !header_fits(layout, s) {
        return None;
    }
    let n = number_at(s, COUNT_PLACE, HEADER_WIDTH) as usize;
    if s.len() < place(layout, n) {
        return None;
    }
    all_rows(layout, s, id, n)
}

// Looks for the body with the id.
pub(crate) fn find(layout: Layout, s: &[u8], id: &[u8]) -> Result<Part, FindError>
    requires { LayoutOk layout }
    ensures { result ≡ find_of layout s.now id.now }
{
    if id.len() != ID_SIZE {
        return Err(FindError::Malformed);
    }
    let contents = check(layout, s, id).ok_or(FindError::BadImage)?;
    let held = contents.held.ok_or(FindError::NotFound)?;
    Ok(Part {
        at: held.at,
        len: held.len,
    })
}
