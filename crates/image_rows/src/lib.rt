// Where the rows of a stored image stand, for any layout: the check, the lookup, growing and removal find them here.
#![tactic(auto)]

ghost use Rattle.std.specs.Prelude.{◌≡◌, ◌≤◌, ◌<◌};
ghost use Rattle.image_spec.specs.Layout.{LayoutOk, most_rows, row_place, place_within};

use image_spec::layout::{HEADER_SIZE, Layout};

// Where row i stands; where the bodies of so many rows begin. 0 where no image has rows of that size, or so many.
#[tactic(auto, using(crate::proofs::PlaceCode::small, image_spec::proofs::Laws::place_within_lem), unfolding(image_spec::specs::Layout::place_within, image_spec::specs::Layout::row_place))]
pub fn place(layout: Layout, i: usize) -> usize
    ensures value { result ≡ place_within layout i }
    ensures in_image { LayoutOk layout × (i ≤ most_rows layout) → result ≡ row_place layout i }
    ensures upper_bound { result < 4294967296 }
{
    if 1024 < layout.row_size || 65535 < i {
        return 0;
    }
    HEADER_SIZE + layout.row_size * i
}
