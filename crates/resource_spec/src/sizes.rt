// The sizes of identifiers, each named once.

pub const FAY_SIZE: usize = 40;

pub const TERMINAL_SIZE: usize = 45;

// Where what follows a terminal id and "/" begins, in a resource id or a pattern.
pub const LEVELS_PLACE: usize = 46;
