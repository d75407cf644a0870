//! The desk at which the program works, and what it does there whatever is asked: it opens texts, says how a run ends, reports why it ended before its time,
//! and how far it has come.
//!
//! A [`Desk`] is all that the program has of the system that it runs on, so that no other crate of it opens a file or prints but the one that makes the
//! desk. Of a run of `fmp_cli_runs` [`worked`] opens and reads the texts,
//! [`streamed`] reads one of them as it comes, and [`written`] hands it standard output: what it promised of these it has promised (`specs/Runs`). How it ends is an [`Ending`], or a status
//! where it went to its end: [`Ending::status`] says by definition how each ends the program (`specs/Endings`), and [`ended`] does so of every run, whatever it
//! reports.
#![tactic(auto)]

mod desk;
mod ending;
mod faults;
mod files;
mod keeping;
mod memory;
mod outcome;
mod progress;
mod texts;
mod work;

pub use desk::{Desk, FaultForm, put_lines};
pub use ending::{Ending, Fault, kept, settled, settled_write};
pub use faults::{report_beside, report_name, report_question_beside};
pub use files::{file_put, folder_made, trace_put};
pub use keeping::{Kept, KeptText, LineKeeper};
pub use memory::available_in;
pub use outcome::{NO_PATHS, ended, replied, report_begun, report_memory};
pub use progress::ProgressLine;
pub use texts::{STANDARD_INPUT, both_opened, both_read, text_read, third_allowed, trace_read};
pub use work::{streamed, worked, worked_alone, worked_over, written};
