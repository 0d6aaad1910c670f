// The stored image of document 01, as document 02 §5 amends it: a table of contents, then the bodies. What is promised is in
// specs/Promises.antt. No function: here are the layout and the types of what is answered; `image`, `image_write` and `removal` have the
// functions.
#![tactic(auto)]

pub mod layout;

use descriptor_spec::Fields;

// The body with an id: which row it has, where it lies in the image, how long it is, and what was read of it.
#[derive(Clone, Copy)]
pub struct StoredBody {
    pub row: usize,
    pub at: usize,
    pub len: usize,
    pub fields: Fields,
}

// What a check tells of a sound image: how many rows it has, where it ends, and the body that was looked for, where there is one.
#[derive(Clone, Copy)]
pub struct Contents {
    pub rows: u64,
    pub end: usize,
    pub held: Option<StoredBody>,
}

// Why a lookup finds no body: 15, the id is not 16 bytes; 16, the image is not sound; 7, the id is not held.
#[derive(Clone, Copy)]
pub enum FindError {
    Malformed,
    BadImage,
    NotFound,
}

// A lookup in document 01's numbers, as include/cap.h has them: the answer, 0, 15, 16 or 7; and with 0 the place and the length of the
// body.
#[repr(C)]
#[derive(Clone, Copy)]
pub struct StoredNumbers {
    pub answer: u64,
    pub body_at: u64,
    pub body_len: u64,
}

// Why no new image is made: 17, the buffer is too short.
#[derive(Clone, Copy)]
pub enum CreateError {
    TooShort,
}

// Why no body is added: there is no room for it.
#[derive(Clone, Copy)]
pub enum AddError {
    Full,
}

// What is marked of a row: its body is not expired, or its body is; or the row goes.
#[derive(Clone, Copy)]
pub enum Mark {
    Current,
    Expired,
    Gone,
}

// Where room was made for a row and a body: how many rows stay, and where their bodies end.
#[derive(Clone, Copy)]
pub struct Room {
    pub rows: u64,
    pub end: usize,
}

// Why an image of edition 1 is not turned into one of edition 2: 16, the old one is not a sound image of edition 1; 17, the buffer is too
// short.
#[derive(Clone, Copy)]
pub enum UpgradeError {
    BadImage,
    TooShort,
}

// What a call that writes a part of a buffer answers, as include/cap.h has it: the answer, and with 0 how many bytes it wrote.
#[repr(C)]
#[derive(Clone, Copy)]
pub struct Written {
    pub answer: u64,
    pub len: u64,
}
