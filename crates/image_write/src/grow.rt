// A new image, and one more row and body in an image, in place.
ghost use Rattle.std.specs.Prelude.{◌≡◌, ◌+◌, ◌≤◌, ◌<◌, length};
ghost use Rattle.descriptor_spec.specs.Allowed.{id_size};
ghost use Rattle.image_spec.specs.Layout.{row_size, most_rows, row_place, LayoutOk};
ghost use Rattle.image_spec.specs.NewImage.{new_bytes, creation_of, after_new};
ghost use Rattle.image_spec.specs.Grow.{raised, with_row, grown, fits, added_of, after_add};

use crate::moments::put_moment;
use crate::{AddError, CreateError};
use descriptor_spec::sizes::ID_SIZE;
use image_rows::place;
use image_spec::Room;
use image_spec::layout::{
    BODY_WIDTH, COUNT_PLACE, EDITION_PLACE, HEADER_SIZE, HEADER_WIDTH, HEADER_ZERO, LENGTH_PLACE,
    Layout, MASK_PLACE, MASK_WIDTH, MODE_EDITION, MODES_PLACE, OFFSET_PLACE, ZERO_PLACE,
};
use octets::{move_up, number_at, put, put_number};
use time::Seconds;

// Writes the header of no bodies.
#[tactic(auto, using(crate::proofs::NewCode::header_done))]
pub(crate) fn put_header(layout: Layout, d: &mut [u8])
    ensures { d.new ≡ new_bytes layout d.old }
{
    put_number(d, EDITION_PLACE, HEADER_WIDTH, layout.edition);
    put_number(d, MODES_PLACE, HEADER_WIDTH, MODE_EDITION);
    put_number(d, COUNT_PLACE, HEADER_WIDTH, 0);
    put_number(d, HEADER_ZERO, HEADER_WIDTH, 0);
}

// Makes a new image of no bodies; a buffer that is too short for its header is left as it was.
pub(crate) fn new_image(layout: Layout, d: &mut [u8]) -> Result<(), CreateError>
    ensures { (result ≡ creation_of d.old) × (d.new ≡ after_new layout d.old) }
{
    if d.len() < HEADER_SIZE {
        return Err(CreateError::TooShort);
    }
    put_header(layout, d);
    Ok(())
}

// Raises the offsets of the n rows by a row.
fn raise(layout: Layout, d: &mut [u8], n: usize)
    requires { LayoutOk layout × (n < most_rows layout) }
    ensures { d.new ≡ raised layout d.old n 0 }
{
    for i in 0..n {
        let at = place(layout, i) + OFFSET_PLACE;
        let offset = number_at(d, at, BODY_WIDTH);
        put_number(d, at, BODY_WIDTH, offset + layout.row_size as u64);
    }
}

// A row that is added: its body, where the id stands in it, the union of its modes, and when it was last used.
#[derive(Clone, Copy)]
pub(crate) struct NewRow<'a> {
    pub body: &'a [u8],
    pub id: usize,
    pub mask: u64,
    pub used: Seconds,
}

// Writes the row at r, whose body lies at `at`.
#[tactic(auto, using(crate::proofs::GrowCode::row_done))]
fn put_row(layout: Layout, d: &mut [u8], r: usize, at: usize, row: NewRow)
    requires { LayoutOk layout × (row.id + id_size ≤ length row.body.now) × (r + row_size layout ≤ length d.old) }
    ensures { d.new ≡ with_row layout d.old r at row.entry.body.now row.entry.id row.entry.mask row.entry.used.0 }
{
    put(d, r, &row.body[row.id..row.id + ID_SIZE]);
    put_number(d, r + OFFSET_PLACE, BODY_WIDTH, at as u64);
    put_number(d, r + LENGTH_PLACE, BODY_WIDTH, row.body.len() as u64);
    put_number(d, r + MASK_PLACE, MASK_WIDTH, row.mask);
    put_number(d, r + ZERO_PLACE, layout.moment_place - ZERO_PLACE, 0);
    put_moment(layout, d, r, row.used);
}

// Adds the row last: so many rows are held, whose bodies end there.
#[tactic(auto, using(crate::proofs::GrowCode::grow_done))]
fn grow(layout: Layout, d: &mut [u8], room: Room, row: NewRow)
    requires { LayoutOk layout × (room.rows < most_rows layout) × (row_place layout room.rows ≤ room.end)
        × (room.end + row_size layout + length row.body.now ≤ length d.old) × (row.id + id_size ≤ length row.body.now) }
    ensures { d.new ≡ grown layout d.old room.rows room.end row.entry.body.now row.entry.id row.entry.mask row.entry.used.0 }
{
    let n = room.rows as usize;
    let start = place(layout, n);
    let at = room.end + layout.row_size;
    move_up(d, start, room.end, layout.row_size);
    raise(layout, d, n);
    put_row(layout, d, start, at, row);
    put(d, at, row.body);
    put_number(d, COUNT_PLACE, HEADER_WIDTH, room.rows + 1);
}

// Whether the row can be added: fewer rows than the most, whose bodies begin after them and end there, room for the larger image, and an id
// that lies in the body.
fn can_grow(layout: Layout, d: &[u8], room: Room, row: NewRow) -> bool
    requires { LayoutOk layout }
    ensures { result ≡ fits layout d.now room.rows room.end row.entry.body.now row.entry.id }
{
    if layout.most_rows <= room.rows {
        return false;
    }
    if room.end < place(layout, room.rows as usize) {
        return false;
    }
    if d.len() < room.end {
        return false;
    }
    let left = d.len() - room.end;
    if left < layout.row_size {
        return false;
    }
    if left - layout.row_size < row.body.len() {
        return false;
    }
    if row.body.len() < ID_SIZE {
        return false;
    }
    row.id <= row.body.len() - ID_SIZE
}

// Adds the row last, or answers that it cannot, and writes nothing.
pub(crate) fn add_body(
    layout: Layout,
    d: &mut [u8],
    room: Room,
    row: NewRow,
) -> Result<(), AddError>
    requires { LayoutOk layout }
    ensures { (result ≡ added_of layout d.old room.rows room.end row.entry.body.now row.entry.id)
        × (d.new ≡ after_add layout d.old room.rows room.end row.entry.body.now row.entry.id row.entry.mask row.entry.used.0) }
{
    if !can_grow(layout, d, room, row) {
        return Err(AddError::Full);
    }
    grow(layout, d, room, row);
    Ok(())
}
