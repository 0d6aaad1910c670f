// Leases, as document 02 §4 has them after source 001. What is promised of them is in specs/Promises.antt. No function: here are the types
// of a lease, its state, and the error of a table; `lease` has the functions.
#![tactic(auto)]

pub mod sizes;

use time::{Margin, Milliseconds, Seconds};

// What a row of the lease table has beside the descriptor's id: whether the lease is revoked; the last sync (L); how long the lease is
// active after it (ttl, T), and how long stale after that (grace, G); how far the last sync may lie after the clock (skew, D); and the
// tolerance (E) with which it ends.
#[derive(Clone, Copy)]
pub struct Lease {
    pub revoked: bool,
    pub last_sync: Milliseconds,
    pub ttl: Seconds,
    pub grace: Seconds,
    pub skew: Milliseconds,
    pub tolerance: Milliseconds,
}

// The state of a lease at a clock. Active and stale have the margin: how long it is to the last active millisecond, below zero where that
// has passed.
#[derive(Clone, Copy)]
pub enum LeaseState {
    Revoked,
    Future,
    Active(Margin),
    Stale(Margin),
    Expired,
}

// The error of bytes that are no lease table.
#[derive(Clone, Copy)]
pub struct Malformed;
