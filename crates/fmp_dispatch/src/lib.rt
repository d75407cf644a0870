//! Dispatching: which task each processor runs, which handlers are due on it, and what holds it.
//!
//! Contracts see two lists in the order of the processors' numbers: their records, and of each the handlers that are due, the
//! running one first. Where there is none of a number, a look-up gives a blank record and a change does nothing. Both lists
//! have as many items.
//!
//! A processor is held while a handler is due on it, in the CPU-locked state, and while its dispatching is disabled. One that
//! is not held runs what it is told to (`settle`). No call allocates.
#![tactic(auto)]

mod dispatch;
mod due;
mod operations;

pub use dispatch::Dispatch;
