//! The plain machine between two events: its records, and the words by which they change.
//!
//! Nothing is queued. Each task has numbers that tell when it last became ready and when its wait began, and whatever comes
//! first is found by looking at all of them. It is slow, and easy to compare with the rules.
//!
//! Contracts see a state of the definitions whose order is the model's numbers (`numbered`). [`PlainMachine`] is one of
//! [`fmp_step_words::Words`] and of [`fmp_step_words::Objects`]: each of their methods does what the trait says. All memory is taken by
//! `PlainMachine::blank`.
#![tactic(auto)]

mod blank;
mod blocks;
mod counts;
mod data_queue;
mod data_queues;
mod due;
mod firsts;
mod groups;
mod handlers;
mod kept;
mod left;
mod locks;
mod machine;
mod numbers;
mod object_words;
mod order;
mod resources;
mod tops;
mod views;
mod waiting;
mod words;

pub use machine::PlainMachine;
