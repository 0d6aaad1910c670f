// The item reader: one CBOR item of deterministic encoding (RFC 8949 sections 3 and 4.2.1) at a place of lent bytes. It knows
// nothing of what the items are for. What is promised of it is in specs/Promises.antt. No function: here are the types of what it
// answers; `cbor_item` has the functions.
#![tactic(auto)]

// A head: its major type and its number. The major type is CBOR's own number, which the definition `head` writes and the byte interface hands
// out.
#[derive(Clone, Copy)]
pub struct Head {
    pub major: u8,
    pub number: u64,
}

// A string's content: where it starts, and its length. `Part` of `descriptor_spec` is its like for descriptors, with the names of the byte
// interface.
#[derive(Clone, Copy)]
pub struct Span {
    pub start: usize,
    pub len: usize,
}

// An item: its number, where its string stands, or its count.
#[derive(Clone, Copy)]
pub enum Item {
    Unsigned(u64),
    Bytes(Span),
    Text(Span),
    Array(u64),
    Map(u64),
}

// An item in document 01's numbers, as include/cap.h has them: the answer, 0 or 1; the kind, as CBOR's major type; the value, length or
// count; the place and the length of a string's content; the place after the item.
#[repr(C)]
#[derive(Clone, Copy)]
pub struct ItemNumbers {
    pub answer: u64,
    pub kind: u64,
    pub number: u64,
    pub content_at: u64,
    pub content_len: u64,
    pub next: u64,
}
