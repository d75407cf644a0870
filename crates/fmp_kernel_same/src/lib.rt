//! Whether records of the machine are the same, and numbers that tell them apart: for the parts of a kernel that keep them.
#![tactic(auto)]

mod lone;
mod numbers;
mod records;
mod same;
mod setups;

pub use lone::{Lone, number_records};
pub use same::{Same, ValueToDigest, add_each, are_equal};
