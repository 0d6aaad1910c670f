// The entries of the maps of source 002: a key and its value, where a value is a number under a head, a string of a kind, a map of pairs,
// or a signature; and the fixed byte strings. That each is read exactly is proved in proofs/. No function: here are the types of its
// definitions; `entries` has the functions.
#![tactic(auto)]

// What a string is: a text or a byte string of lo to hi bytes, a terminal id, a fay id, or a pattern.
#[derive(Clone, Copy)]
pub enum Kind {
    Text { lo: usize, hi: usize },
    Bytes { lo: usize, hi: usize },
    Terminal,
    Fay,
    Pattern,
}

// Where an optional value is that is there, and its size, which is the length of a string's content or the number of a map's pairs.
#[derive(Clone, Copy)]
pub struct Place {
    pub at: usize,
    pub size: u64,
}
