// Identifiers, resource ids, patterns and matching, as document 01 has them. Nothing here knows of CBOR. What is promised is in
// specs/Promises.antt. No function: here are the sizes, and the types of what matching answers; `resource` has the functions.
#![tactic(auto)]

pub mod sizes;

// What matching answers where either text is malformed: document 01's 15. Of two that are well formed it answers Some with the number of
// levels that were matched by equal names, or None where they do not match.
#[derive(Clone, Copy)]
pub struct Malformed;

// A matching in document 01's numbers, as include/cap.h has them: the answer, 0 or 15; 1 for yes; and the number of levels that
// were matched by equal names.
#[repr(C)]
#[derive(Clone, Copy)]
pub struct MatchingNumbers {
    pub answer: u64,
    pub yes: u64,
    pub names: u64,
}
