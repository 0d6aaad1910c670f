// The functions over leases: reading a row, the state of a lease, and the lease that a table has under an id. What they mean is in
// `lease_spec`.
#![tactic(auto)]

mod rows;
mod states;

pub use lease_spec::{Lease, LeaseState, Malformed};
pub use rows::{find, read_row};
pub use states::state;
