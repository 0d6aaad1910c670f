// The decision of a request, as document 01 has it, and document 02 amends it. What is promised is in specs/Promises.antt. No function:
// here are the types of what a request answers; `request` has the functions.
#![tactic(auto)]

use time::{Margin, Seconds};

// What is granted: the picked grant's place and its mask, the session's end and the lease's margin.
#[derive(Clone, Copy)]
pub struct Granted {
    pub grant: u64,
    pub mask: u64,
    pub end: Seconds,
    pub margin: Margin,
}

// Why a request is refused, by the first step that fails: 15 malformed arguments, 16 bad image, 7 id not held, 8 revoked, 9 not yet valid, 10
// expired, 11 another subject, 12 another terminal, 13 no grant serves, 14 the key is not valid, 4 bad signature; then of the lease 26
// revoked, 23 future, 24 stale, with its margin, and 25 expired.
#[derive(Clone, Copy)]
pub enum Refusal {
    Malformed,
    BadImage,
    NotFound,
    Revoked,
    NotYetValid,
    Expired,
    SubjectMismatch,
    TerminalMismatch,
    Insufficient,
    KeyInvalid,
    BadSignature,
    LeaseRevoked,
    LeaseFuture,
    LeaseStale(Margin),
    LeaseExpired,
}

// A decision in the papers' numbers, as include/cap.h has them: the answer; with 0 the grant's place, its mask and the session's end, in
// seconds; and with 0 and 24 the lease's margin, in milliseconds, 0 where the id has no lease.
#[repr(C)]
#[derive(Clone, Copy)]
pub struct DecisionNumbers {
    pub answer: u64,
    pub grant: u64,
    pub mask: u64,
    pub session_end: u64,
    pub margin: i64,
}

// A grant that is picked: its place, counted from 0, its mask, and how many levels of the resource it matches by equal names.
#[derive(Clone, Copy)]
pub struct Picked {
    pub grant: u64,
    pub mask: u64,
    pub names: u64,
}
