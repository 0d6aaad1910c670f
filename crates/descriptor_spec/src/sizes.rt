// Sizes and limits that the crates above use too, each named once.

// The bytes of a descriptor's id.
pub const ID_SIZE: usize = 16;

// How many modes there are, and the highest of their numbers.
pub const MODE_COUNT: u64 = 4;

pub const HIGHEST_MODE: u64 = 3;

// The most bytes of a descriptor, and the longest period in seconds: 90 days.
pub const LONGEST: usize = 32768;

pub const LONGEST_PERIOD: u64 = 7776000;
