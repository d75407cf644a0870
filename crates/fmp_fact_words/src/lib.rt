//! The words of patterns that stand for facts of a state.
//!
//! `specs/Words` has the word of each fact, as it stands in the lines of a state; [`fact_named`] reads it. The law [`words_mean_facts`] says
//! that each fact is read of its own word. [`asked_by`] says what a row of words asks of a state, [`must_ask`] whether it speaks of one.
#![tactic(auto)]

mod asking;
mod laws;
mod reading;
mod rows;
mod speaking;

pub use asking::{asked_by, asked_of, thing_in};
pub use laws::{words_are_distinct, words_mean_facts};
pub use reading::fact_named;
pub use speaking::{is_of_state, may_ask, must_ask};
