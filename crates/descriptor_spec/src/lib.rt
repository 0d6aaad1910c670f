// Descriptors: the data model of source 002 in the deterministic encoding of RFC 8949, as document 01 limits it. What is promised is in
// specs/Promises.antt. No function: here are the types of what reading answers; `descriptor` has the functions.
#![tactic(auto)]

pub mod sizes;

use time::Seconds;

// A part of the bytes: its place and its length; both 0 for what is absent.
#[derive(Clone, Copy)]
pub struct Part {
    pub at: usize,
    pub len: usize,
}

// What is seen of a descriptor: parts and places in its bytes, and numbers. The payload is what the signature covers. `grants` counts the
// grants, of which the first stands at `first`; `metadata` is the place of the map's head, 0 where it is absent, and `pairs` the number of
// its pairs; `constraints` counts the constraint pairs of all grants, `mask` is the union of their modes' masks.
#[derive(Clone, Copy)]
pub struct Fields {
    pub payload: Part,
    pub issued_at: Seconds,
    pub not_before: Seconds,
    pub not_after: Seconds,
    pub id: usize,
    pub issuer: Part,
    pub grantor: Part,
    pub fay: usize,
    pub terminal: usize,
    pub grants: u64,
    pub first: usize,
    pub metadata: usize,
    pub pairs: u64,
    pub constraints: u64,
    pub mask: u64,
    pub key: Part,
    pub algorithm: u64,
    pub signature: Part,
}

// Why reading refuses: document 01's 1 or its 2.
#[derive(Clone, Copy)]
pub enum ReadError {
    Structure,
    Validity,
}

// A descriptor in document 01's numbers, as include/cap.h has them: the answer, 0, 1 or 2; and with 0 its parts, places and numbers.
#[repr(C)]
#[derive(Clone, Copy)]
pub struct DescriptorNumbers {
    pub answer: u64,
    pub payload_at: u64,
    pub payload_len: u64,
    pub issued_at: u64,
    pub not_before: u64,
    pub not_after: u64,
    pub id_at: u64,
    pub issuer_at: u64,
    pub issuer_len: u64,
    pub grantor_at: u64,
    pub grantor_len: u64,
    pub fay_at: u64,
    pub terminal_at: u64,
    pub grants: u64,
    pub metadata_at: u64,
    pub metadata_pairs: u64,
    pub constraint_pairs: u64,
    pub mask: u64,
    pub key_id_at: u64,
    pub key_id_len: u64,
    pub algorithm: u64,
    pub signature_at: u64,
    pub signature_len: u64,
}

// A grant in numbers, as include/cap.h has them: 1 and its parts, places and numbers, or zeros where there is none.
#[repr(C)]
#[derive(Clone, Copy)]
pub struct GrantNumbers {
    pub found: u64,
    pub pattern_at: u64,
    pub pattern_len: u64,
    pub mask: u64,
    pub modes_at: u64,
    pub constraints_at: u64,
    pub constraint_pairs: u64,
}
