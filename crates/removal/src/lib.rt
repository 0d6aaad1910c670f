// Making room in a stored image of edition 2: expired rows go, and what stays closes up. Which rows go, and what that leaves, is in
// `image_spec`.
#![tactic(auto)]

mod choose;
mod close;

ghost use Rattle.std.specs.Prelude.{◌≡◌, ◌≤◌, length};
ghost use Rattle.descriptor_spec.specs.Allowed.{longest};
ghost use Rattle.image_spec.specs.Layout.{edition2, most_rows, LayoutOk};
ghost use Rattle.image_spec.specs.Choose.{short_of, room_of, after_room};

use descriptor_spec::sizes::LONGEST;
use image_spec::Mark;
pub use image_spec::Room;
use image_spec::layout::{EDITION2, Layout};
use time::Seconds;

// A mark is a byte, so that the marks of all rows take 1,024.
const _: () = prove!(size_of::<Mark>() == 1);

// How many bytes a buffer of `room` bytes is short of, for a row and a body of `more` bytes after an image that ends at `end`.
fn short_of(layout: Layout, end: usize, more: usize, room: usize) -> usize
    requires { LayoutOk layout × (end ≤ room) × (more ≤ longest) }
    ensures { result ≡ short_of layout end more room }
{
    (layout.row_size + more).saturating_sub(room - end)
}

// Makes room with the lent marks, one for each row.
fn room_by(
    layout: Layout,
    image: &mut [u8],
    marks: &mut [Mark],
    end: usize,
    clock: Seconds,
    more: usize,
) -> Option<Room>
    requires { LayoutOk layout × (length marks.old ≤ most_rows layout) × (end ≤ length image.old) × (more ≤ longest) }
    ensures { (result ≡ room_of layout image.old (length marks.old) end clock.0 more)
        × (image.new ≡ after_room layout image.old (length marks.old) end clock.0 more) }
{
    choose::mark_all(layout, image, marks, clock);
    let short = short_of(layout, end, more, image.len());
    let choice = choose::choose(layout, image, marks, short)?;
    if end < choice.freed {
        return None;
    }
    close::close(layout, image, marks);
    Some(Room {
        rows: marks.len() as u64 - choice.removed,
        end: end - choice.freed,
    })
}

// Makes room for a row and a body of `more` bytes in an image of so many rows, which ends at `end`: expired rows go, least recently used
// first, only until there is room. Where there is none then no byte is changed.
pub fn make_room(
    image: &mut [u8],
    rows: u64,
    end: usize,
    clock: Seconds,
    more: usize,
) -> Option<Room>
    ensures { (result ≡ room_of edition2 image.old rows end clock.0 more)
        × (image.new ≡ after_room edition2 image.old rows end clock.0 more) }
{
    if EDITION2.most_rows < rows || image.len() < end || LONGEST < more {
        return None;
    }
    let mut marks = [Mark::Current; 1024];
    room_by(
        EDITION2,
        image,
        &mut marks[..rows as usize],
        end,
        clock,
        more,
    )
}
