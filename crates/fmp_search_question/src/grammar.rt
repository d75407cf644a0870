//! The grammar of questions, apart from how they are read, and that both agree.
//!
//! There is no code here: a law is the contract of a function without a body. In the grammar a text is words, these are patterns,
//! `not` and `refused`, and they make items, parts, moments and steps (`Writes` in `specs/Grammar`), whose patterns ask for facts where they speak of a
//! state (`Asks`). It knows no reader and no fault.
//!
//! `asked_questions_are_read` and `read_questions_are_asked` are the two directions, and by `questions_ask_one_thing` a text asks
//! at most one question. `asked_for_ever_is_read`, `read_for_ever_is_asked` and `for_ever_asks_one_thing` say the same of questions of what stays
//! for ever (`AsksForEver` in `specs/ForEver`).

mod laws;

pub use laws::{
    asked_for_ever_is_read, asked_questions_are_read, for_ever_asks_one_thing,
    questions_ask_one_thing, read_for_ever_is_asked, read_questions_are_asked,
};
