// The sizes of a row of the revocation list in bytes, each named once.

// The bytes of a row: those of the id, then those of the moment.
pub const REVOCATION_SIZE: usize = 24;

// The bytes of the moment.
pub const MOMENT_WIDTH: usize = 8;
