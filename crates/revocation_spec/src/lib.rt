// The revocation list, as document 02 §2 has it. What is promised is in specs/Promises.antt. No function: here is the type of a row of the
// list; `revocation` has the functions over its bytes, `revocation_slice` those over a slice of rows.
#![tactic(auto)]

pub mod sizes;

use descriptor_spec::sizes::ID_SIZE;

// A row of the revocation list: a descriptor's id, and the moment, in seconds, from which on it is revoked.
#[repr(C)]
#[derive(Clone, Copy)]
pub struct Revocation {
    pub id: [u8; ID_SIZE],
    pub moment: u64,
}
