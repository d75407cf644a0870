//! The text of a trace: one line for each record. It is printed, and read back.
//!
//! What is printed of a record is `specs/Lines`; which texts print which records, and the first fault of a text that prints
//! none, is `specs/Prints`. Begin at [`trace_line`] and [`read_trace`].
//!
//! A line is read by a guess that is printed again and compared with it (`specs/Guess`), so a wrong guess does no harm, and the
//! form of a trace is written down once. [`validate_from`] tells the first fault of a text, from a line on, and keeps no record.
//! [`event_of`] reads the event of a line alone. docs/FORMATS.md has the form.
//!
//! A line is printed into a vector. Memory can be wanting only where that has less room than the line needs, and no line is longer
//! than `most_line_bytes`, as the law [`lines_are_short`] says. So a vector that has that room is enough for every line.
#![tactic(auto)]

mod guess;
mod heads;
mod laws;
mod lines;
mod reading;
mod values;

pub use guess::{guess_event, guess_runner};
pub use heads::event_of;
pub use laws::{lines_are_short, texts_print_one_list};
pub use lines::{
    code_piece, put_answer, put_core, put_event, put_line, put_lost, put_releases, put_requests,
    put_run_change, put_runner, put_running, put_task, trace_line, trace_text,
};
pub use reading::{is_line, next_line, read_trace, validate_from};
pub use values::{put_named, put_number, put_signed};
