// An image of one edition turned into one of another, in a second buffer.
ghost use Rattle.std.specs.Prelude.{◌≡◌, [], ◌+◌, ◌≤◌, ◌<◌, length};
ghost use Rattle.image_spec.specs.Layout.{edition1, edition2, row_size, most_rows, row_place, LayoutOk};
ghost use Rattle.image_spec.specs.Check.{check_of};
ghost use Rattle.image_spec.specs.Upgrade.{row_copied, rows_copied, copied, new_length, upgrade_by, after_by};

use crate::moments::put_moment;
use crate::{UpgradeError, grow};
use image_rows::place;
use image_spec::layout::{
    BODY_WIDTH, COUNT_PLACE, EDITION1, EDITION2, HEADER_WIDTH, Layout, OFFSET_PLACE,
};
use octets::{number_at, put, put_number};
use time::Seconds;

// Copies row i of the old image, up to its moment; its offset is higher by so much, and its moment is 0.
#[tactic(auto, using(crate::proofs::CopyCode::row_done))]
fn copy_row(from: Layout, to: Layout, old: &[u8], d: &mut [u8], i: usize, by: usize)
    requires { LayoutOk from × LayoutOk to × (i < most_rows from) × (i < most_rows to) × (row_place from i + row_size from ≤ length old.now)
        × (row_place to i + row_size to ≤ length d.old) × (by < 4294967296) }
    ensures { d.new ≡ row_copied from to old.now d.old i by }
{
    let r = place(from, i);
    let q = place(to, i);
    let offset = number_at(old, r + OFFSET_PLACE, BODY_WIDTH);
    put(d, q, &old[r..r + from.moment_place]);
    put_number(d, q + OFFSET_PLACE, BODY_WIDTH, offset + by as u64);
    put_moment(to, d, q, Seconds(0));
}

// Copies the n rows.
fn copy_rows(from: Layout, to: Layout, old: &[u8], d: &mut [u8], n: usize, by: usize)
    requires { LayoutOk from × LayoutOk to × (n ≤ most_rows from) × (n ≤ most_rows to) × (row_place from n ≤ length old.now)
        × (row_place to n ≤ length d.old) × (by < 4294967296) }
    ensures { d.new ≡ rows_copied from to old.now d.old n 0 by }
{
    for i in 0..n {
        copy_row(from, to, old, d, i, by);
    }
}

// Copies the old image of so many rows, whose bodies end at `end`: a new header, the rows, the bodies, and the row count.
#[tactic(auto, using(crate::proofs::CopyCode::image_done))]
fn copy_image(from: Layout, to: Layout, old: &[u8], d: &mut [u8], rows: u64, end: usize)
    requires { LayoutOk from × LayoutOk to × (rows ≤ most_rows from) × (rows ≤ most_rows to) × (row_place from rows ≤ row_place to rows)
        × (row_place from rows ≤ end) × (end ≤ length old.now) × (new_length from to rows end ≤ length d.old) }
    ensures { d.new ≡ copied from to old.now d.old rows end }
{
    let n = rows as usize;
    let start = place(from, n);
    let new = place(to, n);
    grow::put_header(to, d);
    copy_rows(from, to, old, d, n, new - start);
    put(d, new, &old[start..end]);
    put_number(d, COUNT_PLACE, HEADER_WIDTH, rows);
}

// The old image, of edition 1, is checked, then the length of the new one, of edition 2; before that nothing is written.
pub(crate) fn upgrade(old: &[u8], d: &mut [u8]) -> Result<usize, UpgradeError>
    ensures { (result ≡ upgrade_by edition1 edition2 d.old (check_of edition1 old.now []))
        × (d.new ≡ after_by edition1 edition2 old.now d.old (check_of edition1 old.now [])) }
{
    let contents = image::check_first(old, &old[..0]).ok_or(UpgradeError::BadImage)?;
    let n = contents.rows as usize;
    let len = contents.end + (place(EDITION2, n) - place(EDITION1, n));
    if d.len() < len {
        return Err(UpgradeError::TooShort);
    }
    copy_image(EDITION1, EDITION2, old, d, contents.rows, contents.end);
    Ok(len)
}
