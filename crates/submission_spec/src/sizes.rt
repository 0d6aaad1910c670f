// Where the UUID text begins in an identifier.

// In a fay id, after "fay:".
pub const FAY_TEXT: usize = 4;

// In a terminal id, after "terminal:".
pub const TERMINAL_TEXT: usize = 9;
