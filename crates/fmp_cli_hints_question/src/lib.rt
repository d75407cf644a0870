//! What stands beside a fault of a question: the question, a caret under the first byte of the word at fault, what is wanted there, and what is told
//! of the word.
//!
//! What is told of a word is a name that is near, the number that a trace has in place of a constant, or what stands for a word of another language of
//! patterns. By contract a near name is a nearest one of those that a question may have (`specs/Known`); the texts that are told are only tested. That the
//! question has the fault is taken from the caller. [`row_context`] is about a line of a text of questions.
#![tactic(auto)]

mod known;
mod lines;
mod question;
mod row;
mod rows;

pub use question::{question_code, question_context, question_words};
pub use row::row_context;
