//! The kernel between two events: its parts, and the words by which they change together.
//!
//! Contracts see a state of the definitions, whose order is kept by lists: ready queues, a wait queue for each object, of which
//! a data queue has two, and the tasks whose waits have ticks left. Each part is a crate of its own, with a contract of its
//! own, and here each word of the definitions is a few calls of the parts: a task changes its record, leaves the lists in
//! which it stood, and joins those in which it is to stand.
//!
//! Whatever comes first is found without a look at all tasks. All memory is taken by `KernelMachine::blank`.
#![tactic(auto)]

mod machine;
mod object_words;
mod parts;
mod places;
mod views;
mod words;

pub use machine::KernelMachine;
