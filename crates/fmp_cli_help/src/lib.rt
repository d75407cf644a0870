//! What may be written, told to a reader: the service calls, the statements and the faults, from the tables by which texts are
//! read.
//!
//! [`everything`] tells all of it, and [`about`] what there is to tell of one word: also of an answer, an attribute or another word of
//! the texts. By contract there is something to tell of just the words that are a subject by `specs/Listing`, which goes by the readers' tables
//! ([`subject_of`]); what a call does is what its row of the tables in `deeds.rt` says; and a near name is a nearest one (`specs/Near`). Laws say that no
//! fault, no call, no answer and no attribute is forgotten. The texts that are told are only tested, word for word.
#![tactic(auto)]

mod calls;
mod deeds;
mod faults;
mod fields;
mod laws;
mod left_out;
mod listing;
mod near;
mod projects;
mod statements;
mod words;

pub use calls::{put_argument, put_call};
pub use faults::{put_config_advice, put_text_advice};
pub use fields::word_of as statement_word;
pub use laws::{
    answers_and_attributes_are_reported, config_faults_are_listed, deeds_are_listed,
    left_out_words_are_listed, text_faults_are_listed, what_is_left_out_is_reported,
};
pub use left_out::is_left_out;
pub use listing::{about, everything, put_left_out};
pub use near::{near_answer, near_attribute, near_call, near_statement, near_word, nearer};
pub use projects::{is_class_word, is_notice_word, is_project_word};
pub use statements::put_about as put_statement;
