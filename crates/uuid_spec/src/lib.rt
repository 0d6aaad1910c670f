// UUIDs of version 7, as RFC 9562 lays them out, and their texts. What is promised is in specs/Promises.antt. No function: here are the
// sizes; `uuid` has the functions.
#![tactic(auto)]

pub mod sizes;
