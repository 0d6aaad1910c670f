// Reading and writing pieces of lent bytes. A piece that does not fit is not written, and no function has a requirement.
#![tactic(auto)]

mod compare;
mod numbers;
mod order;
mod part;
mod scan;
mod write;

pub use compare::{same_bytes, same_start};
pub use numbers::{number_at, put_number};
pub use order::{before, has_at};
pub use part::part_at;
pub use scan::until;
pub use write::{move_down, move_up, put};
