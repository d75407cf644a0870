//! Tasks: their records, and how one changes.
//!
//! Contracts see the list of the records in the order of the tasks' numbers: a map from tasks to what is known of each. Where
//! there is none of a number, a look-up gives a blank record and a change does nothing. No call walks the list but `new`, and
//! none allocates.
#![tactic(auto)]

mod operations;
mod resting;
mod tasks;

pub use tasks::Tasks;
