//! Reading questions about runs, word by word, and resolving their patterns: those that speak of the state become tests of it.
//!
//! docs/FORMATS.md has how a question is written, and [`grammar`] the laws that the reader and the grammar agree.
#![tactic(auto)]

mod draft;
mod fault;
mod grammar;
mod parts;
mod place;
mod reading;
mod resolving;
mod stage;

pub use fault::{QuestionFault, ReadFault};
pub use grammar::{
    asked_for_ever_is_read, asked_questions_are_read, for_ever_asks_one_thing,
    questions_ask_one_thing, read_for_ever_is_asked, read_questions_are_asked,
};
pub use parts::{is_lasting, read_lasting};
pub use reading::read_question;
pub use stage::Stage;
