// Closing up an image in place: one forward pass over the rows, and one over the bodies that stay.
ghost use Rattle.std.specs.Prelude.{◌≡◌, ◌+◌, ◌^◌, ◌≤◌, ◌<◌, length};
ghost use Rattle.octets.specs.Number.{number_in};
ghost use Rattle.image_spec.specs.Layout.{body_width, length_place, most_rows, row_place, LayoutOk};
ghost use Rattle.image_spec.specs.Close.{stays, row_kept, one_more, closed_rows, count_kept, body_moved, closed_bodies, closed_up};

use image_rows::place;
use image_spec::Mark;
use image_spec::layout::{
    BODY_WIDTH, COUNT_PLACE, HEADER_WIDTH, LENGTH_PLACE, Layout, OFFSET_PLACE,
};
use octets::{move_down, number_at, put_number};

// Moves row i down to row k unless it goes, and says how many rows stay then.
#[tactic(auto, using(crate::proofs::CloseCode::row_stays))]
fn keep_row(layout: Layout, d: &mut [u8], i: usize, k: usize, mark: Mark) -> usize
    requires { LayoutOk layout × (i < most_rows layout) × (k ≤ i) }
    ensures value { result ≡ one_more (stays mark) k }
    ensures d_after { d.new ≡ row_kept layout (stays mark) d.old i k }
{
    if let Mark::Gone = mark {
        return k;
    }
    let from = place(layout, i);
    let to = place(layout, k);
    move_down(d, from, to, layout.row_size);
    k + 1
}

// Closes up the rows, and says how many stay.
fn close_rows(layout: Layout, d: &mut [u8], marks: &[Mark]) -> usize
    requires { LayoutOk layout × (length marks.now ≤ most_rows layout) }
    ensures value { (result ≡ count_kept marks.now 0) × (result ≤ length marks.now) }
    ensures d_after { d.new ≡ closed_rows layout d.old marks.now 0 0 }
{
    let mut k = 0;
    for i in 0..marks.len() {
        k = keep_row(layout, d, i, k, marks[i]);
    }
    k
}

// Moves the body of row i down to the place `at`, writes the row's offset, and says where the body then ends.
fn move_body(layout: Layout, d: &mut [u8], i: usize, at: usize) -> usize
    requires { LayoutOk layout × (i < most_rows layout) × (at < 2 ^ 60) }
    ensures value { (result ≡ at + number_in d.old (row_place layout i + length_place) body_width) × (result < at + 4294967296) }
    ensures d_after { d.new ≡ body_moved layout d.old (row_place layout i) at }
{
    let row = place(layout, i);
    let from = number_at(d, row + OFFSET_PLACE, BODY_WIDTH) as usize;
    let len = number_at(d, row + LENGTH_PLACE, BODY_WIDTH) as usize;
    move_down(d, from, at, len);
    put_number(d, row + OFFSET_PLACE, BODY_WIDTH, at as u64);
    at + len
}

// Closes up the bodies of the first k rows, from where the bodies of k rows begin.
fn close_bodies(layout: Layout, d: &mut [u8], k: usize)
    requires { LayoutOk layout × (k ≤ most_rows layout) }
    ensures { d.new ≡ closed_bodies layout d.old k 0 (row_place layout k) }
{
    let mut at = place(layout, k);
    for i in 0..k {
        at = move_body(layout, d, i, at);
    }
}

// Removes the rows that are marked to go: the rows close up, then the bodies, and the row count is written.
#[tactic(auto, using(crate::proofs::CloseCode::close_done))]
pub(crate) fn close(layout: Layout, d: &mut [u8], marks: &[Mark])
    requires { LayoutOk layout × (length marks.now ≤ most_rows layout) }
    ensures { d.new ≡ closed_up layout d.old marks.now }
{
    let k = close_rows(layout, d, marks);
    close_bodies(layout, d, k);
    put_number(d, COUNT_PLACE, HEADER_WIDTH, k as u64);
}
