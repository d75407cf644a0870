//! The lines of a partial trace: a trace in which each line may leave out its number, its runner, its answer, each field after that, and the values of
//! codes, or the codes themselves. A line may tell its bound: the last line whose event may take effect before its own.
//!
//! What a line prints of a record where parts are left out is `specs/Partial`; which lines partly print which records, and the
//! first fault of a text that partly prints none, is `specs/Partly`. Begin at [`read_said`].
//!
//! A line is read as that of a trace is: by a guess that is printed again and compared with it (`specs/Said`, `specs/Saying`). What it
//! leaves out of codes is found in its words, and something is put in there before the rest is guessed (`specs/Marks`).
#![tactic(auto)]

mod codes_kept;
mod kept;
mod marks;
mod telling;

pub use codes_kept::{AnswerKept, CodeKept, CodesKept};
pub use kept::{Kept, put_kept};
pub use telling::{Said, put_said, read_said};
