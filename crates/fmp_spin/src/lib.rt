//! Spin locks: which processor holds each of them.
//!
//! Contracts see a map from locks to holders: the list of the holders in the order of the locks' numbers, with nobody at a lock
//! that is free. Where there is none of a number, nobody holds it and nobody takes it. A processor holds as many locks as it
//! took, and frees all of them at once or one by one.
//!
//! No call allocates.
#![tactic(auto)]

mod holder;
mod operations;
mod spins;

pub use spins::Spins;
