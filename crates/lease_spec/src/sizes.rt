// The sizes and places of a row of the lease table in bytes, and the limits of its numbers, each named once.
use time::{Milliseconds, Seconds};

// The bytes of a row: id (16), flag (1), zero (7), then five numbers of 8.
pub const LEASE_SIZE: usize = 64;

// Where the flag is, and its width.
pub const FLAG_PLACE: usize = 16;

pub const FLAG_WIDTH: usize = 1;

// Where the zero bytes are, and how many.
pub const ZERO_PLACE: usize = 17;

pub const ZERO_WIDTH: usize = 7;

// Where the numbers are, and their width.
pub const LAST_SYNC_PLACE: usize = 24;

pub const TTL_PLACE: usize = 32;

pub const GRACE_PLACE: usize = 40;

pub const SKEW_PLACE: usize = 48;

pub const TOLERANCE_PLACE: usize = 56;

pub const NUMBER_WIDTH: usize = 8;

// The latest moment that a last sync or the clock may have: 2^53.
pub const LATEST: Milliseconds = Milliseconds(9007199254740992);

// What a ttl or a grace is below: 2^32.
pub const LENGTH_END: Seconds = Seconds(4294967296);

// The most that a skew or a tolerance may be: one day.
pub const LONGEST_SKEW: Milliseconds = Milliseconds(86400000);
