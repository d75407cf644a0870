//! What a question about runs is: patterns of lines and facts of states, moments at which they are there or not, and moments one after the
//! other; and when they are at an event.
//!
//! docs/FORMATS.md has what a question asks.
//!
//! And the words of patterns: which ones a trace or a state may have, and where in the line of a record they stand.
//!
//! docs/FORMATS.md has the form of such a line. Which words of a state stand together is not asked here.
#![tactic(auto)]

mod forms;
mod items;
mod lines;
mod matching;
mod question;
mod refusals;
mod sight;
mod spot;
mod words;

pub use forms::spot_of;
pub use items::{Item, Part, Wanted};
pub use lines::{some_read, step_reads};
pub use matching::{allows, has_fact, has_moment};
pub use question::{Moment, Pattern, Piece, Question, Step};
pub use refusals::is_code;
pub use sight::Sight;
pub use spot::Spot;
pub use words::{TRACE_WORDS, are_fine, begins_with_digit, cut_run, has_star, is_printed};
