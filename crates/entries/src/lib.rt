// The functions that read the entries of the maps of source 002. They take any bytes and any place. What an entry is, and that it is read
// exactly, is in `entries_spec`.
#![tactic(auto)]

pub mod keys;
pub mod pairs;
pub mod signature;
pub mod times;
pub mod value;
