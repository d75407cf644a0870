//! Whether what a pattern asks of a state is so of a machine.
//!
//! `specs/Facts` says for each thing and each word of a pattern which test of the state the word stands for: that is what a question means.
//! No text is written or looked through.
//!
//! Laws say that a question means what it says: the words of a thing and of its facts ask whether these facts are so of the thing.
#![tactic(auto)]

mod holding;
mod laws;

pub use holding::is_so;
pub use laws::{
    facts_mean_their_tests, facts_without_a_thing_are_asked_of_any, names_are_alone,
    several_facts_are_asked_of_one_thing, things_alone_are_of_the_record,
};
