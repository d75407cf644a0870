//! What stands beside a fault line: the line of the text, a caret under the first byte at fault, and what is wanted there.
//!
//! A [`Walk`] is how far a line is read. In a line of events or scripts the reader itself says where it refuses (`event_or_misfit`, `line_misfit`), and
//! that is the place (`specs/Places`, `specs/Scripts`); the law `places_are_in_their_lines` says that it is in that line. In a line of a trace it is the
//! first word with which the reader takes no line that begins so (`specs/Traces`). [`text_spot`] is the place of the caret as numbers: of these texts it is
//! that place (`specs/Texts`). A near name is a nearest one (`specs/Hints`, `specs/Things`).
//!
//! The texts that are told, and the places in lines that may leave out parts, are only tested. Begin at [`text_context`]. What stands beside a fault of a
//! configuration is `fmp_cli_hints_config`, and of a question `fmp_cli_hints_question`.
#![tactic(auto)]

mod event;
mod excerpt;
mod fits;
mod hints;
mod labels;
mod laws;
mod likeness;
mod line;
mod partial;
mod rows;
mod script;
mod text;
mod things;
mod trace;
mod walk;
mod wanted;

pub use event::event_place;
pub use excerpt::{put_excerpt, put_line};
pub use hints::put_near;
pub use laws::places_are_in_their_lines;
pub use likeness::{Likeness, config_likeness, put_config_likeness, without_mark};
pub use line::line_after;
pub use rows::{foreign_words, report_of};
pub use text::{TextForm, function_at, task_at, text_advice, text_context, text_spot};
pub use things::near_thing;
pub use walk::Walk;
pub use wanted::{LABEL, Wanted, put_mark, put_processors};
