//! Many questions in one text, and what is told of their answers.
//!
//! [`read_rows`] reads a text of questions, one a line, each with a name and what is expected of it: its rows up to the first line that is
//! wrong, as `rows_in` in `specs/Rows` has them. A [`Reply`] is a question with its answer; what is told of it, by itself
//! ([`plain_line`], [`tap_line`]) or with all others ([`junit_text`], [`judgement_of`]), is in `specs/Answers`.
#![tactic(auto)]

mod answers;
mod junit;
mod lines;
mod reading;
mod rows;

pub use answers::{Answer, Judgement, Reply, judgement_of};
pub use junit::junit_text;
pub use lines::{plain_line, tap_head, tap_line};
pub use reading::{RowFault, RowKind, Rows, read_rows};
pub use rows::{Expected, Row};
