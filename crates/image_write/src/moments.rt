// The last-used moment of a row, in its bytes. Here alone a moment is a bare number.
ghost use Rattle.std.specs.Prelude.{◌≡◌, ◌+◌, ◌≤◌, length};
ghost use Rattle.octets.specs.Number.{big_endian, number_in};
ghost use Rattle.octets.specs.Write.{put_at};
ghost use Rattle.time.specs.Time.{seconds};
ghost use Rattle.image_spec.specs.Layout.{row_size, moment_place, moment_size, LayoutOk};
ghost use Rattle.image_spec.specs.Touch.{raised_at, touched_at};

use image_spec::layout::Layout;
use octets::{number_at, put_number};
use time::Seconds;

// The last-used moment of the row at r.
pub(crate) fn moment_at(layout: Layout, s: &[u8], r: usize) -> Seconds
    requires { LayoutOk layout × (r + row_size layout ≤ length s.now) }
    ensures { result ≡ seconds (number_in s.now (r + moment_place layout) (moment_size layout)) }
{
    Seconds(number_at(
        s,
        r + layout.moment_place,
        layout.row_size - layout.moment_place,
    ))
}

// Writes the last-used moment of the row at r.
pub(crate) fn put_moment(layout: Layout, d: &mut [u8], r: usize, moment: Seconds)
    requires { LayoutOk layout × (r + row_size layout ≤ length d.old) }
    ensures { d.new ≡ put_at d.old (r + moment_place layout) (big_endian (moment_size layout) moment.0) }
{
    put_number(
        d,
        r + layout.moment_place,
        layout.row_size - layout.moment_place,
        moment.0,
    );
}

// Writes the last-used moment of the row at r where it is later than the one that stands there.
#[tactic(auto, using(crate::proofs::TouchCode::raise_not, crate::proofs::TouchCode::raise_done))]
fn raise_moment(layout: Layout, d: &mut [u8], r: usize, moment: Seconds)
    requires { LayoutOk layout × (r + row_size layout ≤ length d.old) }
    ensures { d.new ≡ raised_at layout d.old r moment.0 }
{
    let used = moment_at(layout, d, r);
    if !used.is_before(moment) {
        return;
    }
    put_moment(layout, d, r, moment);
}

// The same of row i, where it lies in the bytes.
#[tactic(auto, using(crate::proofs::TouchCode::touch_not, crate::proofs::TouchCode::touch_done))]
pub(crate) fn touch(layout: Layout, d: &mut [u8], i: usize, moment: Seconds)
    requires { LayoutOk layout }
    ensures { d.new ≡ touched_at layout d.old i moment.0 }
{
    let r = image_rows::place(layout, i);
    if d.len() < r + layout.row_size {
        return;
    }
    raise_moment(layout, d, r, moment);
}
