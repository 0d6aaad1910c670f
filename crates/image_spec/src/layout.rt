// The sizes, limits, places and editions of a stored image, each named once.

// What an edition of the image fixes: its number, the most rows, where in a row the last-used moment begins, which goes up to the row's
// end, and the bytes of a row. What it may be is no ghost field: the laws of specs/Laws.antt take a layout and `LayoutOk` apart.
#[derive(Clone, Copy)]
pub struct Layout {
    pub edition: u64,
    pub most_rows: u64,
    pub moment_place: usize,
    pub row_size: usize,
}

pub const EDITION1: Layout = Layout {
    edition: 1,
    most_rows: 64,
    moment_place: 32,
    row_size: 32,
};

pub const EDITION2: Layout = Layout {
    edition: 2,
    most_rows: 1024,
    moment_place: 32,
    row_size: 40,
};

pub const MODE_EDITION: u64 = 1;

pub const HEADER_SIZE: usize = 8;

// The bytes of each of the four numbers of the header, and where they stand.
pub const HEADER_WIDTH: usize = 2;

pub const EDITION_PLACE: usize = 0;

pub const MODES_PLACE: usize = 2;

pub const COUNT_PLACE: usize = 4;

pub const HEADER_ZERO: usize = 6;

// The bytes of a body's offset and of its length, and of a mask.
pub const BODY_WIDTH: usize = 4;

pub const MASK_WIDTH: usize = 1;

// Where the fields after the id stand in a row; zero goes up to the last-used moment.
pub const OFFSET_PLACE: usize = 16;

pub const LENGTH_PLACE: usize = 20;

pub const MASK_PLACE: usize = 24;

pub const ZERO_PLACE: usize = 25;
