// The sizes of a UUID, each named once.

// The octets of a UUID.
pub const UUID_SIZE: usize = 16;

// The characters of its text.
pub const UUID_TEXT_SIZE: usize = 36;
